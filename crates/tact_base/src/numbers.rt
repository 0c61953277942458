ghost use Rattle.std.specs.Prelude.{◌≡◌, ◌≤◌, ◌+◌, ◌*◌, ◌^◌, ◌∷◌, ◌++◌, length, decimal, OnOk, OnErr, MatchOption};
ghost use Rattle.std.specs.Fmt.{signed_decimal};
ghost use Rattle.tact_base.specs.Numbers.{ReadsNumber};

use crate::{Bytes, NoMemory};
use itoa::Buffer;

/// Why no number was read.
#[derive(Clone, Copy, Debug, PartialEq, Eq)]
pub enum NumberFault {
    /// The bytes end at the place.
    Empty,
    /// The byte at this place, where the number had to begin, is no digit.
    NotDigit(usize),
    /// The value first passes 2^64 - 1 at the digit at this place.
    TooLarge(usize),
}

/// Reads all the decimal digits from `place` on as a number, leading zeros too, and moves `place` past
/// them. Places are counted in bytes from 0. A refusal leaves `place`. Takes no memory.
pub fn read_number(bytes: &[u8], place: &mut usize) -> Result<u64, NumberFault>
    requires { place.old ≤ length bytes.now }
    ensures { ReadsNumber bytes.now place.old result place.new }
{
    let start = *place;
    if start == bytes.len() {
        return Err(NumberFault::Empty);
    }
    if !bytes[start].is_ascii_digit() {
        return Err(NumberFault::NotDigit(start));
    }
    let mut value = 0;
    let mut end = start;
    for byte in &bytes[start..] {
        if !byte.is_ascii_digit() {
            break;
        }
        match with_digit(value, *byte - b'0') {
            Some(more) => value = more,
            None => return Err(NumberFault::TooLarge(end)),
        }
        end += 1;
    }
    *place = end;
    Ok(value)
}

// Ten times the value and the digit, where a u64 holds it.
fn with_digit(value: u64, digit: u8) -> Option<u64>
    ensures { MatchOption result (2 ^ 64 ≤ 10 * value + digit) (λ more. more ≡ 10 * value + digit) }
{
    value.checked_mul(10)?.checked_add(u64::from(digit))
}

/// Appends the decimal text of `value`. `NoMemory` leaves `out` as it was.
pub fn print_number(out: &mut Bytes, value: u64) -> Result<(), NoMemory>
    ensures ok { OnOk result (out.new ≡ out.old ++ decimal value) }
    ensures err { OnErr result (out.new ≡ out.old) }
{
    let mut buffer = Buffer::new();
    let digits = buffer.format(value);
    out.append(digits.as_bytes())
}

/// Appends the decimal text of `value`, with `-` before a negative one. `NoMemory` leaves `out` as it was.
pub fn print_signed(out: &mut Bytes, value: i64) -> Result<(), NoMemory>
    ensures ok { OnOk result (out.new ≡ out.old ++ signed_decimal value) }
    ensures err { OnErr result (out.new ≡ out.old) }
{
    let mut buffer = Buffer::new();
    let text = buffer.format(value);
    out.append(text.as_bytes())
}
