//! What is judged of every line, whatever it says, and which lines are skipped.
ghost use Rattle.std.specs.Prelude.{◌≡◌};
ghost use Rattle.std.specs.List.{list_any};
ghost use Rattle.run_record.specs.Splitting.{tokens};
ghost use Rattle.run_record.specs.Lines.{is_bad_byte, is_comment, fault_of_bytes, is_skipped};

use crate::splitting::next_token;
use run_model::LineKind;
use tact_base::LINE_MAX;

/// What is judged of every line, comments and blank lines too: `LongLine` where it has more than 400
/// bytes, else `BadByte` where it has a byte below 32 or above 126.
#[tactic(auto, unfolding(crate::specs::Lines::fault_of_bytes))]
pub fn fault_of_bytes(raw: &[u8]) -> Option<LineKind>
    ensures { result ≡ fault_of_bytes raw.now }
{
    if raw.len() > LINE_MAX {
        Some(LineKind::LongLine)
    } else if has_bad_byte(raw) {
        Some(LineKind::BadByte)
    } else {
        None
    }
}

fn has_bad_byte(raw: &[u8]) -> bool
    ensures { result ≡ list_any is_bad_byte raw.now }
{
    let mut is_bad = false;
    for byte in raw {
        is_bad = is_bad | (*byte < 32) | (*byte > 126);
    }
    is_bad
}

/// Whether the line has no token, or its first begins with `#`.
pub fn is_skipped(raw: &[u8]) -> bool
    ensures { result ≡ is_skipped (tokens raw.now) }
{
    match raw {
        [first, ..] if *first != b' ' => *first == b'#',
        _ => is_skipped_later(raw),
    }
}

// The same of a line that may begin with a space.
fn is_skipped_later(raw: &[u8]) -> bool
    ensures { result ≡ is_skipped (tokens raw.now) }
{
    match next_token(raw) {
        None => true,
        Some((token, _)) => is_comment(token),
    }
}

fn is_comment(token: &[u8]) -> bool
    ensures { result ≡ is_comment token.now }
{
    match token {
        [first, ..] => *first == b'#',
        [] => false,
    }
}
