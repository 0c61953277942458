ghost use Rattle.std.specs.Prelude.{◌≡◌, ◌+◌, ◌≤◌, [], ◌∷◌, ◌++◌, length, codes};
ghost use Rattle.status_line.specs.Lines.{status_text};

use crate::names::{input_name, usage_name};
use run_model::Status;
use tact_base::ShortText;

/// The line that tells a status, with its line feed: the program's name, the status's, its numbers, and the name of its
/// innermost kind. It is empty for Done and Bad, which the output tells. Takes no memory.
pub fn status_line(status: &Status) -> ShortText
    ensures { result.items ≡ status_text status.now }
{
    match status {
        Status::Done | Status::Bad { .. } => ShortText::new(),
        Status::Usage(kind) => told(b"Usage", kind_end(usage_name(*kind))),
        Status::BadInput { place, kind } => {
            let mut line = kind_end(input_name(*kind));
            line.put_marked(b' ', *place);
            told(b"BadInput", line)
        }
        Status::TooLong => told(b"TooLong", line_end()),
        Status::Full {
            replica,
            count,
            clock,
        } => {
            let mut line = line_end();
            line.put_marked(b' ', *clock);
            line.put_marked(b' ', *count);
            line.put_marked(b' ', u64::from(*replica));
            told(b"Full", line)
        }
        Status::JournalFault { replica } => {
            let mut line = line_end();
            line.put_marked(b' ', u64::from(*replica));
            told(b"JournalFault", line)
        }
        Status::JournalForeign { replica, place } => {
            let mut line = line_end();
            line.put_marked(b' ', *place);
            line.put_marked(b' ', u64::from(*replica));
            told(b"JournalForeign", line)
        }
        Status::ReadFault => told(b"ReadFault", line_end()),
        Status::WriteFault => told(b"WriteFault", line_end()),
        Status::NoMemory => told(b"NoMemory", line_end()),
    }
}

// A line feed.
fn line_end() -> ShortText
    ensures items { result.items ≡ 10 ∷ [] }
    ensures room { result.room ≡ 100 }
{
    let mut line = ShortText::new();
    line.put(b'\n');
    line
}

// The name of a kind, and a line feed.
fn kind_end(kind: &[u8]) -> ShortText
    requires { length kind.now ≤ 14 }
    ensures items { result.items ≡ 32 ∷ kind.now ++ 10 ∷ [] }
    ensures room { 85 ≤ result.room }
{
    let mut line = line_end();
    line.put_word(b' ', kind);
    line
}

// The program's name and the status's, before the rest of the line.
fn told(name: &[u8], rest: ShortText) -> ShortText
    requires { length name.now + 9 ≤ rest.room }
    ensures { result.items ≡ codes "tactcli:" ++ 32 ∷ name.now ++ rest.items }
{
    let mut line = rest;
    line.put_word(b' ', name);
    // A word is put behind a byte: here behind its own first letter.
    line.put_word(b't', b"actcli:");
    line
}
