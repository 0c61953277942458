//! The writes of a message, read from bytes field by field.

ghost use Rattle.std.specs.Prelude.{◌≡◌, ◌≤◌, All, IfErr, IfOk, Ok, length};
ghost use Rattle.tact_base.specs.declared.limits.TheConstants.{HISTORY_MAX};
ghost use Rattle.tact_msg.specs.Faults.{IsFaultOf, Tells, behind};
ghost use Rattle.tact_msg.specs.MessageBytes.{write_at, writes_at, writes_of_at};

use crate::MsgFault;
use crate::parts::Told;
use run_model::{FieldFault, number_at, op_at, weights_at};
use std::alloc::Global;
use tact_base::{MOMENT_MAX, STAMP_MAX, Write, WriteList};

// The told writes of all origins.
pub(crate) fn writes_at(
    alloc: Global,
    conits: u32,
    tolds: &[Told],
    bytes: &[u8],
    start: usize,
) -> Result<(WriteList, usize), MsgFault>
    requires small { All (λ told. told.first ≤ HISTORY_MAX) tolds.now }
    requires within { start ≤ length bytes.now }
    ensures { Tells (writes_at conits tolds.now bytes.now start) result }
{
    let mut writes = WriteList::new(alloc);
    let mut place = start;
    for told in tolds {
        place = push_writes_of(conits, told, bytes, place, &mut writes)?;
    }
    Ok((writes, place))
}

// The told writes of one origin, behind those that there are.
fn push_writes_of(
    conits: u32,
    told: &Told,
    bytes: &[u8],
    start: usize,
    writes: &mut WriteList,
) -> Result<usize, MsgFault>
    requires small { told.now.first ≤ HISTORY_MAX }
    requires within { start ≤ length bytes.now }
    ensures within { IfOk result (λ next. next ≤ length bytes.now) }
    ensures ok { IfOk result (λ next.
        behind writes.old (writes_of_at conits told.now bytes.now start) ≡ Ok (writes.new, next)) }
    ensures err { IfErr result (λ fault. IsFaultOf (writes_of_at conits told.now bytes.now start) fault) }
{
    let mut place = start;
    for done in 0..told.count {
        let index = told.first + u64::from(done);
        let (write, next) = write_at(conits, told.origin, index, bytes, place)?;
        writes.push(write)?;
        place = next;
    }
    Ok(place)
}

#[tactic(auto, unfolding(crate::specs::MessageBytes::write_at))]
fn write_at(
    conits: u32,
    origin: u32,
    index: u64,
    bytes: &[u8],
    place: usize,
) -> Result<(Write, usize), FieldFault>
    requires { place ≤ length bytes.now }
    ensures within { IfOk result (λ read. (read.0.index ≡ index) × (read.1 ≤ length bytes.now)) }
    ensures exact { result ≡ write_at conits origin index bytes.now place }
{
    let (stamp, place) = number_at(bytes, place, 1, STAMP_MAX + 1)?;
    let (moment, place) = number_at(bytes, place, 0, MOMENT_MAX + 1)?;
    let (weights, place) = weights_at(conits, bytes, place)?;
    let (op, place) = op_at(bytes, place)?;
    Ok((
        Write {
            origin,
            index,
            stamp,
            moment,
            weights,
            op,
        },
        place,
    ))
}
