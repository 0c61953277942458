//! The setup of a record in bytes, read field by field: each reader is given the bytes and a place, and answers
//! its value and the place after it, or the first fault.

ghost use Rattle.std.specs.Prelude.{◌≡◌, ◌≤◌, ◌+◌, ◌*◌, IfErr, IfOk, Err, Ok, drop, length, take};
ghost use Rattle.std.specs.Int.{w32, from_be_bytes};
ghost use Rattle.tact_base.specs.declared.limits.TheConstants.{REPLICAS_MAX};
ghost use Rattle.tact_base.specs.Setup.{IsSetup, setup};
ghost use Rattle.run_record.specs.EntriesAt.{AreCounts, bound_fields_at, counts_at, loan_bound, loans_at, mark_at};
ghost use Rattle.run_record.specs.RecordAt.{Tells, bound_at, bounds_at, part_of, setup_at, setup_from};

use crate::RecordFault;
use crate::parts::{Bound, Counts};
use run_model::{ByteKind, Config, ConfigFault, FieldFault, byte_at, is_passed_by, number_at};
use std::alloc::Global;
use tact_base::{ALPHA_MAX, CONITS_MAX, Items, NoMemory, Numbers, REPLICAS_MAX, REPLICAS_MIN, Row};

// What was read, or the fault of a field of the bytes as one of the record.
pub(crate) fn part_of<T>(bytes: &[u8], read: Result<T, FieldFault>) -> Result<T, RecordFault>
    ensures { result ≡ part_of (length bytes.now) read }
{
    match read {
        Ok(found) => Ok(found),
        Err(FieldFault::Short) => Err(RecordFault::Bytes {
            place: bytes.len() as u64,
            kind: ByteKind::Short,
        }),
        Err(FieldFault::BadField(place)) => Err(RecordFault::Bytes {
            place: place as u64,
            kind: ByteKind::BadField,
        }),
    }
}

// The setup, and the place behind it.
#[tactic(auto, unfolding(crate::specs::RecordAt::setup_at))]
pub(crate) fn setup_at(
    alloc: Global,
    bytes: &[u8],
    place: usize,
) -> Result<(Config, usize), RecordFault>
    requires { place ≤ length bytes.now }
    ensures within { IfOk result (λ read. read.1 ≤ length bytes.now) }
    ensures exact { Tells (setup_at bytes.now place) result }
{
    let (counts, place) = part_of(bytes, counts_at(bytes, place))?;
    let (bounds, place) = bounds_at(alloc, counts, bytes, place)?;
    let config = config_of(alloc, counts, bounds.items())?;
    Ok((config, place))
}

// The setup of these bounds.
pub(crate) fn config_of(alloc: Global, counts: Counts, bounds: &[Bound]) -> Result<Config, NoMemory>
    requires { IsSetup (setup_from counts bounds.now) }
    ensures { IfOk result (λ config. config ≡ setup_from counts bounds.now) }
{
    let mut alphas = Numbers::new(alloc);
    let mut loans = Numbers::new(alloc);
    for bound in bounds {
        alphas.push(bound.alpha)?;
        loans.append(bound.loans.items())?;
    }
    whole_config(alloc, counts, alphas.items(), loans.items())
}

// The setup of these alphas and loans, which has no fault.
fn whole_config(
    alloc: Global,
    counts: Counts,
    alphas: &[u64],
    loans: &[u64],
) -> Result<Config, NoMemory>
    requires { IsSetup (setup counts.replicas counts.conits alphas.now loans.now) }
    ensures { IfOk result
        (λ config. config ≡ setup counts.replicas counts.conits alphas.now loans.now) }
{
    match Config::new(alloc, counts.replicas, counts.conits, alphas, loans) {
        Ok(config) => Ok(config),
        Err(ConfigFault::NoMemory) => Err(NoMemory),
        Err(_) => unreachable!(),
    }
}

// The mark, the version and the counts.
#[tactic(auto, unfolding(crate::specs::EntriesAt::counts_at))]
fn counts_at(bytes: &[u8], place: usize) -> Result<(Counts, usize), FieldFault>
    requires { place ≤ length bytes.now }
    ensures within { IfOk result (λ read. read.1 ≤ length bytes.now) }
    ensures counts { IfOk result (λ read. AreCounts read.0) }
    ensures exact { result ≡ counts_at bytes.now place }
{
    let (_mark, place) = mark_at(bytes, place)?;
    let (_version, place) = byte_at(bytes, place, 1, 2)?;
    let (replicas, place) = byte_at(bytes, place, REPLICAS_MIN, REPLICAS_MAX + 1)?;
    let (conits, place) = byte_at(bytes, place, 1, CONITS_MAX + 1)?;
    Ok((Counts { replicas, conits }, place))
}

// The mark.
#[tactic(auto, unfolding(crate::specs::EntriesAt::mark_at))]
fn mark_at(bytes: &[u8], place: usize) -> Result<(u32, usize), FieldFault>
    requires { place ≤ length bytes.now }
    ensures within { IfOk result (λ read. read.1 ≤ length bytes.now) }
    ensures exact { result ≡ mark_at bytes.now place }
{
    if bytes.len() - place < 4 {
        return Err(FieldFault::Short);
    }
    let mark = four_at(bytes, place);
    if mark == 0x5441_4354 {
        Ok((mark, place + 4))
    } else {
        Err(FieldFault::BadField(place))
    }
}

// The four bytes from a place on, as a number.
fn four_at(bytes: &[u8], place: usize) -> u32
    requires { place + 4 ≤ length bytes.now }
    ensures { result ≡ from_be_bytes w32 (take 4 (drop place bytes.now)) }
{
    let field = &bytes[place..place + 4];
    u32::from_be_bytes([field[0], field[1], field[2], field[3]])
}

// The bounds, by owner and then conit.
fn bounds_at(
    alloc: Global,
    counts: Counts,
    bytes: &[u8],
    start: usize,
) -> Result<(Items<Bound>, usize), RecordFault>
    requires counts { AreCounts counts }
    requires within { start ≤ length bytes.now }
    ensures within { IfOk result (λ read. read.1 ≤ length bytes.now) }
    ensures exact { Tells (bounds_at counts.replicas counts.conits
        (counts.replicas * counts.conits) 0 bytes.now start) result }
{
    let mut bounds = Items::new(alloc);
    let mut place = start;
    for row in 0..counts.replicas * counts.conits {
        let (bound, next) = bound_at(counts.replicas, row / counts.conits, bytes, place)?;
        bounds.push(bound)?;
        place = next;
    }
    Ok((bounds, place))
}

// The bound of an owner on a conit.
#[tactic(auto, unfolding(crate::specs::RecordAt::bound_at))]
fn bound_at(
    replicas: u32,
    owner: u32,
    bytes: &[u8],
    place: usize,
) -> Result<(Bound, usize), RecordFault>
    requires few { replicas ≤ REPLICAS_MAX }
    requires within { place ≤ length bytes.now }
    ensures within { IfOk result (λ read. read.1 ≤ length bytes.now) }
    ensures exact { result ≡ bound_at replicas owner bytes.now place }
{
    let (bound, next) = part_of(bytes, bound_fields_at(replicas, owner, bytes, place))?;
    if is_passed_by(bound.loans.items(), bound.alpha) {
        return Err(RecordFault::Bytes {
            place: place as u64,
            kind: ByteKind::LoansOver,
        });
    }
    Ok((bound, next))
}

#[tactic(auto, unfolding(crate::specs::EntriesAt::bound_fields_at))]
fn bound_fields_at(
    replicas: u32,
    owner: u32,
    bytes: &[u8],
    place: usize,
) -> Result<(Bound, usize), FieldFault>
    requires few { replicas ≤ REPLICAS_MAX }
    requires within { place ≤ length bytes.now }
    ensures within { IfOk result (λ read. read.1 ≤ length bytes.now) }
    ensures exact { result ≡ bound_fields_at replicas owner bytes.now place }
{
    let (alpha, place) = number_at(bytes, place, 0, ALPHA_MAX + 1)?;
    let (loans, place) = loans_at(replicas, owner, bytes, place)?;
    Ok((Bound { alpha, loans }, place))
}

// The loans of an owner, by holder.
fn loans_at(
    replicas: u32,
    owner: u32,
    bytes: &[u8],
    place: usize,
) -> Result<(Row, usize), FieldFault>
    requires few { replicas ≤ REPLICAS_MAX }
    requires within { place ≤ length bytes.now }
    ensures within { IfOk result (λ read. read.1 ≤ length bytes.now) }
    ensures exact { result ≡ loans_at owner replicas 0 bytes.now place }
{
    let mut items = [0; REPLICAS_MAX as usize];
    let items = &mut items[..replicas as usize];
    let place = fill_loans(items, owner, bytes, place)?;
    Ok((Row::new(items), place))
}

fn fill_loans(
    items: &mut [u64],
    owner: u32,
    bytes: &[u8],
    start: usize,
) -> Result<usize, FieldFault>
    requires few { length items.old ≤ REPLICAS_MAX }
    requires within { start ≤ length bytes.now }
    ensures within { IfOk result (λ next. next ≤ length bytes.now) }
    ensures ok { IfOk result (λ next.
        loans_at owner (length items.old) 0 bytes.now start ≡ Ok (items.new, next)) }
    ensures err { IfErr result (λ fault. loans_at owner (length items.old) 0 bytes.now start ≡ Err fault) }
{
    let mut place = start;
    let mut holder = 0;
    for item in items.iter_mut() {
        let bound = loan_bound(owner, holder);
        let (loan, next) = number_at(bytes, place, 0, bound)?;
        holder += 1;
        place = next;
        *item = loan;
    }
    Ok(place)
}

// Below it is what an owner lends to a holder. To itself it lends nothing.
fn loan_bound(owner: u32, holder: u32) -> u64
    ensures { result ≡ loan_bound owner holder }
{
    if holder == owner { 1 } else { ALPHA_MAX + 1 }
}
