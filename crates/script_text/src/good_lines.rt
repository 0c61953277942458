//! Whether a text has good bytes alone, seen at once.
ghost use Rattle.std.specs.Prelude.{◌≡◌, All, IsTrue};
ghost use Rattle.run_record.specs.Lines.{is_bad_byte};
ghost use Rattle.run_record.specs.Splitting.{raw_lines};
ghost use Rattle.script_text.specs.GoodLines.{IsGood};

/// Whether no line of a text has a bad byte.
pub(crate) fn are_good(text: &[u8]) -> bool
    ensures { IsTrue result → All IsGood (raw_lines text.now) }
{
    let mut is_foul = false;
    for byte in text {
        is_foul = is_foul | (is_bad_byte(*byte) & (*byte != 10));
    }
    !is_foul
}

// Whether a byte is below 32 or above 126, by one comparison.
fn is_bad_byte(byte: u8) -> bool
    ensures { result ≡ is_bad_byte byte }
{
    byte.wrapping_sub(32) > 94
}
