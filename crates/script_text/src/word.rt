//! The words that a line of a script may begin with.
ghost use Rattle.std.specs.Prelude.{◌≡◌, IfErr, IfOk};
ghost use Rattle.run_record.specs.Splitting.{tokens};
ghost use Rattle.run_record.specs.Fields.{Fails, token_at};
ghost use Rattle.script_text.specs.Words.{word_of, BeginsBy};

use run_record::{LineFault, past_word, token_at};

/// The word that a line begins with.
#[derive(Clone, Copy, Debug, PartialEq, Eq)]
pub(crate) enum Word {
    Start,
    Bound,
    At,
    Write,
    Held,
    Reserve,
    Release,
    Read,
    Send,
    Take,
    Sync,
    Lend,
    Back,
    Restart,
    Show,
    Ref,
}

/// Each word and how it is spelled, the frequent ones first.
const WORDS: [(&[u8], Word); 16] = [
    (b"write", Word::Write),
    (b"read", Word::Read),
    (b"send", Word::Send),
    (b"take", Word::Take),
    (b"sync", Word::Sync),
    (b"at", Word::At),
    (b"show", Word::Show),
    (b"held", Word::Held),
    (b"reserve", Word::Reserve),
    (b"release", Word::Release),
    (b"lend", Word::Lend),
    (b"back", Word::Back),
    (b"restart", Word::Restart),
    (b"ref", Word::Ref),
    (b"bound", Word::Bound),
    (b"start", Word::Start),
];

/// The word that the next token is, if it is one, and what is left after the token. `Missing` where the line ends.
pub(crate) fn word_at(rest: &[u8]) -> Result<(Option<Word>, &[u8]), LineFault>
    ensures word { IfOk result (λ x. BeginsBy (tokens rest.now) x.0 (tokens x.1.now)) }
    ensures err { IfErr result (λ fault. Fails fault (token_at (tokens rest.now))) }
{
    if let Some(after) = past_word(rest, b"write") {
        return Ok((Some(Word::Write), after));
    }
    if let Some(after) = past_word(rest, b"read") {
        return Ok((Some(Word::Read), after));
    }
    if let Some(after) = past_word(rest, b"send") {
        return Ok((Some(Word::Send), after));
    }
    if let Some(after) = past_word(rest, b"take") {
        return Ok((Some(Word::Take), after));
    }
    rarer_word_at(rest)
}

// The same of a line that begins with another word.
fn rarer_word_at(rest: &[u8]) -> Result<(Option<Word>, &[u8]), LineFault>
    ensures word { IfOk result (λ x. BeginsBy (tokens rest.now) x.0 (tokens x.1.now)) }
    ensures err { IfErr result (λ fault. Fails fault (token_at (tokens rest.now))) }
{
    if let Some(after) = past_word(rest, b"sync") {
        return Ok((Some(Word::Sync), after));
    }
    if let Some(after) = past_word(rest, b"at") {
        return Ok((Some(Word::At), after));
    }
    if let Some(after) = past_word(rest, b"show") {
        return Ok((Some(Word::Show), after));
    }
    if let Some(after) = past_word(rest, b"held") {
        return Ok((Some(Word::Held), after));
    }
    if let Some(after) = past_word(rest, b"lend") {
        return Ok((Some(Word::Lend), after));
    }
    if let Some(after) = past_word(rest, b"release") {
        return Ok((Some(Word::Release), after));
    }
    if let Some(after) = past_word(rest, b"back") {
        return Ok((Some(Word::Back), after));
    }
    if let Some(after) = past_word(rest, b"restart") {
        return Ok((Some(Word::Restart), after));
    }
    if let Some(after) = past_word(rest, b"reserve") {
        return Ok((Some(Word::Reserve), after));
    }
    if let Some(after) = past_word(rest, b"ref") {
        return Ok((Some(Word::Ref), after));
    }
    any_word_at(rest)
}

// The same of every line.
fn any_word_at(rest: &[u8]) -> Result<(Option<Word>, &[u8]), LineFault>
    ensures word { IfOk result (λ x. BeginsBy (tokens rest.now) x.0 (tokens x.1.now)) }
    ensures err { IfErr result (λ fault. Fails fault (token_at (tokens rest.now))) }
{
    let (token, after) = token_at(rest)?;
    Ok((word_of(token), after))
}

/// The word that a token is, if it is one.
pub(crate) fn word_of(token: &[u8]) -> Option<Word>
    ensures { result ≡ word_of token.now }
{
    for (spelling, word) in WORDS.iter() {
        if token == *spelling {
            return Some(*word);
        }
    }
    None
}
