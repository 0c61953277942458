//! Records in text, read line by line.
ghost use Rattle.std.specs.Prelude.{◌≡◌, ◌≢◌, ◌≤◌, ◌<◌, ◌+◌, ◌^◌, ℕ, [], IfErr, IfOk, IfSome, OnOk, Some, Err, Ok, Option, All, length};
ghost use Rattle.std.specs.Option.{option_map};
ghost use Rattle.tact_base.specs.Setup.{IsSetup};
ghost use Rattle.run_record.specs.EntriesAt.{AreCounts};
ghost use Rattle.run_record.specs.Records.{Held, IsHeld, IsShortOf};
ghost use Rattle.run_record.specs.RecordText.{record_text};
ghost use Rattle.run_record.specs.Splitting.{raw_lines, tokens};
ghost use Rattle.run_record.specs.declared.fault.RecordFault.TheVariants as fault;
ghost use Rattle.run_record.specs.RecordLines.{EndsBy, Stage, Bounds, Entries, Whole, Reads, numbered, read_from, read_next, record_of};

use crate::body_lines::{BodyLine, body_line};
use crate::get_setup::config_of;
use crate::line_fault::LineFault;
use crate::lines::{fault_of_bytes, is_skipped};
use crate::parts::Counts;
use crate::setup_lines::{bound_line, header_line};
use crate::splitting::split_line;
use crate::{Record, RecordFault, Shorts};
use run_model::{Config, LineKind};
use std::alloc::Global;
use tact_base::Items;

/// Reads a record from text: `tact 1 REPLICAS CONITS`; for each owner and each conit, both rising, a line
/// `bound OWNER CONIT ALPHA LOAN..` with a loan for each holder, 0 for the owner itself; the lines of the entries;
/// `end COUNT` with their number. Blank lines and those whose first token begins with `#` are skipped, tokens may
/// stand more than one space apart, and numbers may begin with zeros. A text that is none is refused with its
/// first line at fault, counted from 1, and that line's first fault: `LongLine` and `BadByte` of any line; then
/// token by token `BadHeader` where the setup's words and numbers aren't those that are due, `AfterEnd`,
/// `UnknownWord`, `Missing`, `NotNumber`, `OutOfRange`, `SameReplica`, `Unordered` and `Extra`; then of the whole
/// line `LoansOver` and `WrongCount`. A text that ends within the setup is `BadHeader`, and one that ends before
/// its end line is `MissingEnd`, at the number of its lines plus one.
pub fn parse_text(alloc: Global, bytes: &[u8]) -> Result<Record, RecordFault>
    // What is read is a record in range.
    ensures found { IfOk result IsHeld }
    // The text that is printed of a record in range is read, if there is memory.
    ensures again { (held : Held) → IsHeld held → bytes.now ≡ record_text held
        → result ≢ Err fault.NoMemory → result ≡ Ok held }
    // It is what the text says; and a fault is the first of the text.
    ensures exact { Reads result (record_of bytes.now) }
{
    record_of(alloc, bytes)
}

fn record_of(alloc: Global, bytes: &[u8]) -> Result<Record, RecordFault>
    ensures found { IfOk result IsHeld }
    ensures exact { Reads result (record_of bytes.now) }
{
    let (counts, number, rest) = read_header(bytes)?;
    let (config, number, rest) = read_bounds(alloc, counts, number, rest)?;
    let (entries, number, rest) = read_entries(alloc, &config, number, rest)?;
    read_end(number, rest)?;
    Ok(Record::new(config, entries))
}

// The next line that isn't skipped, if there is one; its number, or that of the lines plus one; and what is left
// of the text after it.
fn next_line(first: u64, text: &[u8]) -> Result<(Option<&[u8]>, u64, &[u8]), RecordFault>
    requires { first + length text.now < 2 ^ 64 }
    ensures room { IfOk result (λ x. IfSome x.0 (λ _. x.1 + length x.2.now < first + length text.now)) }
    ensures shorter { IfOk result (λ x. IfSome x.0 (λ _. length x.2.now < length text.now)) }
    ensures ok { IfOk result (λ x. (stage : Stage) → read_from first stage (raw_lines text.now)
        ≡ read_next (option_map (λ line. tokens line.now) x.0) x.1 x.2.now stage) }
    ensures err { IfErr result (λ fault. (stage : Stage) → Reads (Err fault) (read_from first stage (raw_lines text.now))) }
{
    let mut rest = text;
    let mut number = first;
    while !rest.is_empty() {
        let (raw, after) = split_line(rest);
        if let Some(kind) = fault_of_bytes(raw) {
            return Err(RecordFault::Text {
                place: number,
                kind,
            });
        }
        if !is_skipped(raw) {
            return Ok((Some(raw), number, after));
        }
        number += 1;
        rest = after;
    }
    Ok((None, number, rest))
}

// The next line that isn't skipped, its number, and what is left of the text after it. Where the text ends first,
// the fault is of this kind.
fn due_line(first: u64, text: &[u8], kind: LineKind) -> Result<(&[u8], u64, &[u8]), RecordFault>
    requires { first + length text.now < 2 ^ 64 }
    ensures room { IfOk result (λ x. x.1 + length x.2.now < first + length text.now) }
    ensures shorter { IfOk result (λ x. length x.2.now < length text.now) }
    ensures ok { IfOk result (λ x. (stage : Stage) → read_from first stage (raw_lines text.now)
        ≡ read_next (Some (tokens x.0.now)) x.1 x.2.now stage) }
    ensures err { IfErr result (λ fault. (stage : Stage) → EndsBy kind stage
        → Reads (Err fault) (read_from first stage (raw_lines text.now))) }
{
    let (line, number, rest) = next_line(first, text)?;
    match line {
        Some(line) => Ok((line, number, rest)),
        None => Err(RecordFault::Text {
            place: number,
            kind,
        }),
    }
}

// The answer to a line of this number as one to its record.
fn numbered<T>(number: u64, read: Result<T, LineFault>) -> Result<T, RecordFault>
    ensures { result ≡ numbered number read }
{
    match read {
        Ok(found) => Ok(found),
        Err(LineFault::NoMemory) => Err(RecordFault::NoMemory),
        Err(LineFault::Kind(kind)) => Err(RecordFault::Text {
            place: number,
            kind,
        }),
    }
}

// The counts, the number of the line after theirs, and what is left of the text from there on.
#[tactic(auto, unfolding(crate::specs::RecordLines::record_of))]
fn read_header(text: &[u8]) -> Result<(Counts, u64, &[u8]), RecordFault>
    requires { 1 + length text.now < 2 ^ 64 }
    ensures counts { IfOk result (λ x. AreCounts x.0) }
    ensures room { IfOk result (λ x. x.1 + length x.2.now < 2 ^ 64) }
    ensures ok { IfOk result (λ x. record_of text.now ≡ read_from x.1 (Bounds x.0 []) (raw_lines x.2.now)) }
    ensures err { IfErr result (λ fault. Reads (Err fault) (record_of text.now)) }
{
    let (line, number, rest) = due_line(1, text, LineKind::BadHeader)?;
    let counts = numbered(number, header_line(line))?;
    Ok((counts, number + 1, rest))
}

// The setup of the bounds that follow the counts, alike.
fn read_bounds(
    alloc: Global,
    counts: Counts,
    first: u64,
    text: &[u8],
) -> Result<(Config, u64, &[u8]), RecordFault>
    requires counts { AreCounts counts }
    requires room { first + length text.now < 2 ^ 64 }
    ensures room { IfOk result (λ x. x.1 + length x.2.now < 2 ^ 64) }
    ensures ok { IfOk result (λ x. read_from first (Bounds counts []) (raw_lines text.now)
        ≡ read_from x.1 (Entries x.0 []) (raw_lines x.2.now)) }
    ensures err { IfErr result (λ fault. Reads (Err fault) (read_from first (Bounds counts []) (raw_lines text.now))) }
{
    let mut bounds = Items::new(alloc);
    let mut number = first;
    let mut rest = text;
    for row in 0..counts.replicas * counts.conits {
        let (line, at, after) = due_line(number, rest, LineKind::BadHeader)?;
        let bound = bound_line(
            line,
            counts.replicas,
            row / counts.conits,
            row % counts.conits,
        );
        bounds.push(numbered(at, bound)?)?;
        number = at + 1;
        rest = after;
    }
    let config = config_of(alloc, counts, bounds.items())?;
    Ok((config, number, rest))
}

// The entries that follow the setup, up to the end line, alike.
fn read_entries<'a>(
    alloc: Global,
    config: &Config,
    first: u64,
    text: &'a [u8],
) -> Result<(Shorts, u64, &'a [u8]), RecordFault>
    requires { first + length text.now < 2 ^ 64 }
    ensures within { IfOk result (λ x. All (IsShortOf config.now) x.0) }
    ensures room { IfOk result (λ x. x.1 + length x.2.now < 2 ^ 64) }
    ensures ok { IfOk result (λ x. read_from first (Entries config.now []) (raw_lines text.now)
        ≡ read_from x.1 (Whole (record { setup = config.now; entries = x.0 })) (raw_lines x.2.now)) }
    ensures err { IfErr result (λ fault. Reads (Err fault) (read_from first (Entries config.now []) (raw_lines text.now))) }
{
    let counts = Counts {
        replicas: config.replicas(),
        conits: config.conits(),
    };
    let mut shorts = Shorts::new(alloc);
    let mut number = first;
    let mut rest = text;
    loop {
        let (line, at, after) = due_line(number, rest, LineKind::MissingEnd)?;
        number = at + 1;
        rest = after;
        let said = body_line(alloc, line, counts, shorts.len() as u64);
        match numbered(at, said)? {
            BodyLine::Entry(short) => shorts.push(short)?,
            BodyLine::End => return Ok((shorts, number, rest)),
        }
    }
}

// What is left of the text after the end line: nothing but lines that are skipped.
fn read_end(first: u64, text: &[u8]) -> Result<(), RecordFault>
    requires { first + length text.now < 2 ^ 64 }
    ensures ok { (held : Held) → OnOk result (read_from first (Whole held) (raw_lines text.now) ≡ Ok held) }
    ensures err { IfErr result (λ fault. (held : Held)
        → Reads (Err fault) (read_from first (Whole held) (raw_lines text.now))) }
{
    let (line, number, _) = next_line(first, text)?;
    match line {
        None => Ok(()),
        Some(_) => Err(RecordFault::Text {
            place: number,
            kind: LineKind::AfterEnd,
        }),
    }
}
