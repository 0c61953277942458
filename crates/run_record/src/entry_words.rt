//! The words of entries.
ghost use Rattle.std.specs.Prelude.{◌≡◌};
ghost use Rattle.run_record.specs.EntryWords.{act_word, request_word, reply_word};

/// A word that an act begins with.
#[derive(Clone, Copy, Debug, PartialEq, Eq)]
pub(crate) enum ActWord {
    Call,
    Send,
    Take,
    Lend,
    Back,
    Restart,
}

/// A word that a request begins with.
#[derive(Clone, Copy, Debug, PartialEq, Eq)]
pub(crate) enum RequestWord {
    Write,
    Held,
    Reserve,
    Release,
    Read,
}

/// A word that a reply begins with.
#[derive(Clone, Copy, Debug, PartialEq, Eq)]
pub(crate) enum ReplyWord {
    Done,
    Granted,
    Released,
    Value,
    TooHeavy,
    WaitHeld,
    WaitShare,
    WaitLent,
    WaitOrder,
    WaitStale,
    NotHeld,
}

// Each table has the frequent words first.
const ACT_WORDS: [(&[u8], ActWord); 6] = [
    (b"call", ActWord::Call),
    (b"send", ActWord::Send),
    (b"take", ActWord::Take),
    (b"lend", ActWord::Lend),
    (b"back", ActWord::Back),
    (b"restart", ActWord::Restart),
];

const REQUEST_WORDS: [(&[u8], RequestWord); 5] = [
    (b"write", RequestWord::Write),
    (b"read", RequestWord::Read),
    (b"held", RequestWord::Held),
    (b"reserve", RequestWord::Reserve),
    (b"release", RequestWord::Release),
];

const REPLY_WORDS: [(&[u8], ReplyWord); 11] = [
    (b"done", ReplyWord::Done),
    (b"value", ReplyWord::Value),
    (b"wait-share", ReplyWord::WaitShare),
    (b"wait-lent", ReplyWord::WaitLent),
    (b"wait-order", ReplyWord::WaitOrder),
    (b"wait-stale", ReplyWord::WaitStale),
    (b"granted", ReplyWord::Granted),
    (b"released", ReplyWord::Released),
    (b"too-heavy", ReplyWord::TooHeavy),
    (b"wait-held", ReplyWord::WaitHeld),
    (b"not-held", ReplyWord::NotHeld),
];

/// The word of an act that a token is, if it is one.
pub(crate) fn act_word(token: &[u8]) -> Option<ActWord>
    ensures { result ≡ act_word token.now }
{
    for (spelling, word) in ACT_WORDS.iter() {
        if token == *spelling {
            return Some(*word);
        }
    }
    None
}

/// The word of a request that a token is, if it is one.
pub(crate) fn request_word(token: &[u8]) -> Option<RequestWord>
    ensures { result ≡ request_word token.now }
{
    for (spelling, word) in REQUEST_WORDS.iter() {
        if token == *spelling {
            return Some(*word);
        }
    }
    None
}

/// The word of a reply that a token is, if it is one.
pub(crate) fn reply_word(token: &[u8]) -> Option<ReplyWord>
    ensures { result ≡ reply_word token.now }
{
    for (spelling, word) in REPLY_WORDS.iter() {
        if token == *spelling {
            return Some(*word);
        }
    }
    None
}
