ghost use Rattle.std.specs.Prelude.{◌≡◌, ◌<◌, ◌^◌};
ghost use Rattle.tact_base.specs.Numbers.{is_number, whole_number, whole_signed};

use crate::read_number;

/// Why a token isn't a number of its field.
#[derive(Clone, Copy, Debug, PartialEq, Eq)]
pub enum TokenFault {
    /// It isn't a number.
    NotNumber,
    /// It is a number outside the field's range.
    OutOfRange,
}

/// The number that the whole token is: one or more decimal digits, leading zeros too, at most `most`.
/// A number of 2^64 or more is outside each range. Takes no memory.
pub fn whole_number(token: &[u8], most: u64) -> Result<u64, TokenFault>
    ensures { result ≡ whole_number token.now most }
{
    if !is_number(token) {
        return Err(TokenFault::NotNumber);
    }
    match read_number(token, &mut 0) {
        Ok(value) if value <= most => Ok(value),
        _ => Err(TokenFault::OutOfRange),
    }
}

// Whether the token is digits alone, one or more.
fn is_number(token: &[u8]) -> bool
    ensures { result ≡ is_number token.now }
{
    !token.is_empty() && token.iter().all(|byte| byte.is_ascii_digit())
}

/// The signed number that the whole token is: at most one `-` and then one or more decimal digits,
/// leading zeros too, from `-size` to `size`. `-0` is 0. Takes no memory.
pub fn whole_signed(token: &[u8], size: u64) -> Result<i64, TokenFault>
    requires { size < 2 ^ 63 }
    ensures { result ≡ whole_signed token.now size }
{
    match token {
        [b'-', digits @ ..] => Ok(-(whole_number(digits, size)? as i64)),
        digits => Ok(whole_number(digits, size)? as i64),
    }
}
