//! A text in lines, and a line in tokens.
ghost use Rattle.std.specs.Prelude.{◌≡◌, ◌≢◌, ℕ, ◌∷◌, [], ◌<◌, ◌≤◌, length, slice_index, MatchOption};
ghost use Rattle.run_record.specs.Splitting.{pieces_of, raw_lines, tokens};

use memchr::memchr;

/// The first place where the byte stands, or the length where it doesn't.
pub(crate) fn place_of(bytes: &[u8], wanted: u8) -> usize
    ensures within { result ≤ length bytes.now }
    ensures before { (k : ℕ) → k < result → slice_index bytes.now k ≢ wanted }
    ensures found { result < length bytes.now → slice_index bytes.now result ≡ wanted }
{
    for (place, byte) in bytes.iter().enumerate() {
        if *byte == wanted {
            return place;
        }
    }
    bytes.len()
}

/// What stands before the first separator, and what stands after it: all and nothing where there is none.
pub(crate) fn split_first(bytes: &[u8], separator: u8) -> (&[u8], &[u8])
    ensures pieces { 0 < length bytes.now → pieces_of separator bytes.now ≡ result.0.now ∷ pieces_of separator result.1.now }
    ensures shorter { 0 < length bytes.now → length result.1.now < length bytes.now }
{
    let place = place_of(bytes, separator);
    if place < bytes.len() {
        (&bytes[..place], &bytes[place + 1..])
    } else {
        (bytes, &[])
    }
}

/// The first line of a text, and what stands after its line feed: all and nothing where there is none.
pub fn split_line(text: &[u8]) -> (&[u8], &[u8])
    ensures pieces { 0 < length text.now → raw_lines text.now ≡ result.0.now ∷ raw_lines result.1.now }
    ensures shorter { 0 < length text.now → length result.1.now < length text.now }
{
    match memchr(b'\n', text) {
        Some(place) => (&text[..place], &text[place + 1..]),
        None => (text, &[]),
    }
}

/// The next token of a line, and what stands after it.
pub fn next_token(line: &[u8]) -> Option<(&[u8], &[u8])>
    ensures { MatchOption result (tokens line.now ≡ []) (λ next. tokens line.now ≡ next.0.now ∷ tokens next.1.now) }
{
    let mut rest = line;
    while !rest.is_empty() {
        let (token, after) = split_first(rest, b' ');
        if !token.is_empty() {
            return Some((token, after));
        }
        rest = after;
    }
    None
}
