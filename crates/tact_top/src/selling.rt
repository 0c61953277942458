//! Guarded sales: trades are drawn from a number, and a summary is written.
ghost use Rattle.std.specs.Prelude.{◌≡◌, ◌⊎◌, ◌≤◌, ◌∷◌, ◌++◌, [], IfOk, OnOk};
ghost use Rattle.std.specs.Fmt.{signed_decimal};
ghost use Rattle.run_model.specs.Text.{spaced};
ghost use Rattle.run_model.specs.declared.status.Status.TheVariants.{Done, NoMemory as OutOfMemory};
ghost use Rattle.tact_io.specs.Faults.{HasRisen};
ghost use Rattle.drawn_trades.specs.Tallies.{IsTallyOf};
ghost use Rattle.tact_top.specs.Answers.{IsDrawn};
ghost use Rattle.tact_top.specs.SalesText.{other_counts, reference_text, sales_text, trade_counts, trade_tokens, trades_text, value_text, value_tokens, values_text};

use crate::counting::put_messages;
use crate::job::drawn;
use drawn_trades::{Tally, draw_trades};
use run_model::{Status, put_number, put_row, put_token};
use seat_app::Booking;
use std::alloc::Global;
use tact_base::{Bytes, NoMemory, print_signed};
use tact_io::Sink;

/// Sells and cancels places at three replicas by steps that a number draws, and writes a summary: a line with the counts of
/// all entries, of sales and cancellations by what they came to, and of the messages; how many places are sold of all that
/// each replica has seen; and how many of all that was accepted. The same for the same number, on every machine.
///
/// - `WriteFault`: the sink failed in this call. A front of the summary was written.
/// - `NoMemory`: an allocation was refused. Nothing was written, or a front of the summary.
pub fn sales<K: Sink>(alloc: Global, number: u64, sink: &mut K) -> Status
    ensures written { IsDrawn (sales_text number) result (K.written sink.old) (K.written sink.new)
        (K.faults sink.old) (K.faults sink.new) }
    ensures complete { ¬ HasRisen (K.faults sink.old) (K.faults sink.new) → (result ≡ Done) ⊎ (result ≡ OutOfMemory) }
    ensures writes_never_fall { K.faults sink.old ≤ K.faults sink.new }
{
    match summary_of(alloc, number) {
        Ok(text) => drawn(text, sink),
        Err(NoMemory) => Status::NoMemory,
    }
}

// The summary of the trades that a number draws.
fn summary_of(alloc: Global, number: u64) -> Result<Bytes, NoMemory>
    ensures { IfOk result (λ text. text ≡ sales_text number) }
{
    let trades = draw_trades(alloc, number)?;
    let mut text = Bytes::new(alloc);
    put_trades(number, &trades.booking, &trades.tally, &mut text)?;
    put_values(&trades.booking, &mut text)?;
    put_reference(trades.places_sold, &mut text)?;
    Ok(text)
}

// Appends the line with the counts.
fn put_trades(
    number: u64,
    booking: &Booking,
    tally: &Tally,
    out: &mut Bytes,
) -> Result<(), NoMemory>
    requires { IsTallyOf booking.now tally.now }
    ensures { OnOk result (out.new ≡ out.old ++ trades_text number booking.now) }
{
    out.append(b"sales")?;
    put_all(number, booking, tally, out)?;
    out.push(b'\n')
}

fn put_all(number: u64, booking: &Booking, tally: &Tally, out: &mut Bytes) -> Result<(), NoMemory>
    requires { IsTallyOf booking.now tally.now }
    ensures { OnOk result (out.new ≡ out.old ++ spaced (trade_tokens number booking.now)) }
{
    put_number(number, out)?;
    put_row(b"entries", &[booking.entries().len() as u64], out)?;
    put_counts(booking, tally, out)
}

fn put_counts(booking: &Booking, tally: &Tally, out: &mut Bytes) -> Result<(), NoMemory>
    requires { IsTallyOf booking.now tally.now }
    ensures { OnOk result (out.new ≡ out.old ++ spaced (trade_counts booking.now)) }
{
    put_row(b"sold", &[tally.sold], out)?;
    put_row(b"cancelled", &[tally.cancelled], out)?;
    put_others(booking, tally, out)
}

#[tactic(auto, unfolding(crate::specs::SalesText::other_counts))]
fn put_others(booking: &Booking, tally: &Tally, out: &mut Bytes) -> Result<(), NoMemory>
    requires { IsTallyOf booking.now tally.now }
    ensures { OnOk result (out.new ≡ out.old ++ spaced (other_counts booking.now)) }
{
    put_row(b"over", &[tally.over], out)?;
    put_row(b"under", &[tally.under], out)?;
    put_row(b"waits", &[tally.waiting], out)?;
    put_messages(booking.entries(), out)
}

// Appends the line of each replica.
fn put_values(booking: &Booking, out: &mut Bytes) -> Result<(), NoMemory>
    requires { 3 ≤ booking.now.setup.replicas }
    ensures { OnOk result (out.new ≡ out.old ++ values_text booking.now) }
{
    for replica in 0..3 {
        put_value(replica, booking.value(replica), out)?;
    }
    Ok(())
}

// Appends the line of one.
fn put_value(replica: u32, seen: i64, out: &mut Bytes) -> Result<(), NoMemory>
    ensures { OnOk result (out.new ≡ out.old ++ value_text replica seen) }
{
    out.append(b"replica")?;
    put_seen(replica, seen, out)?;
    out.push(b'\n')
}

fn put_seen(replica: u32, seen: i64, out: &mut Bytes) -> Result<(), NoMemory>
    ensures { OnOk result (out.new ≡ out.old ++ spaced (value_tokens replica seen)) }
{
    put_number(u64::from(replica), out)?;
    put_token(b"value", out)?;
    put_signed(seen, out)
}

// Appends the line of all.
fn put_reference(sold: i64, out: &mut Bytes) -> Result<(), NoMemory>
    ensures { OnOk result (out.new ≡ out.old ++ reference_text sold) }
{
    out.append(b"ref")?;
    put_signed(sold, out)?;
    out.push(b'\n')
}

fn put_signed(number: i64, out: &mut Bytes) -> Result<(), NoMemory>
    ensures { OnOk result (out.new ≡ out.old ++ spaced (signed_decimal number ∷ [])) }
{
    out.push(b' ')?;
    print_signed(out, number)
}
