//! What an input is: a record, as text, as bytes or as either of both; or a workload.
ghost use Rattle.std.specs.Prelude.{◌≡◌, IfOk, IfErr, Ok};
ghost use Rattle.run_record.specs.RecordBytes.{record_bytes};
ghost use Rattle.run_record.specs.RecordLines.{record_of};
ghost use Rattle.run_record.specs.Records.{IsHeld};
ghost use Rattle.tact_top.specs.RecordForms.{IsByteFault, IsRecordFault, IsRecordIn, IsTextFault, is_in_bytes};
ghost use Rattle.tact_top.specs.Running.{IsLoadFault};
ghost use Rattle.work_load.specs.Workloads.{workload_in};
ghost use Rattle.tact_top.specs.Refusals.{IsRefusalBy, refusal_of};

use crate::job::Refusal;
use run_model::InputKind;
use run_record::{Record, RecordFault, parse_bytes, parse_text};
use std::alloc::Global;
use work_load::{LoadFault, Plan, parse_plan};

/// The record that an input is as text or as bytes. Bytes begin with `T`, which no text of a record does.
pub(crate) fn read_record(alloc: Global, input: &[u8]) -> Result<Record, Refusal>
    ensures held { IfOk result IsHeld }
    ensures read { IfOk result (IsRecordIn input.now) }
    ensures refused { IfErr result (IsRefusalBy IsRecordFault input.now) }
{
    if is_in_bytes(input) {
        read_bytes(alloc, input)
    } else {
        read_text(alloc, input)
    }
}

// Whether an input can be a record in bytes alone.
fn is_in_bytes(input: &[u8]) -> bool
    ensures { result ≡ is_in_bytes input.now }
{
    match input {
        [] => false,
        [first, ..] => *first == b'T',
    }
}

/// The record that an input is as text.
pub(crate) fn read_text(alloc: Global, input: &[u8]) -> Result<Record, Refusal>
    ensures held { IfOk result IsHeld }
    ensures read { IfOk result (λ held. record_of input.now ≡ Ok held) }
    ensures refused { IfErr result (IsRefusalBy IsTextFault input.now) }
{
    match parse_text(alloc, input) {
        Ok(record) => Ok(record),
        Err(fault) => Err(refusal_of(fault)),
    }
}

/// The record that an input is as bytes.
pub(crate) fn read_bytes(alloc: Global, input: &[u8]) -> Result<Record, Refusal>
    ensures held { IfOk result IsHeld }
    ensures read { IfOk result (λ held. input.now ≡ record_bytes held) }
    ensures refused { IfErr result (IsRefusalBy IsByteFault input.now) }
{
    match parse_bytes(alloc, input) {
        Ok(record) => Ok(record),
        Err(fault) => Err(refusal_of(fault)),
    }
}

/// The plan of the workload that an input is.
pub(crate) fn read_plan(alloc: Global, input: &[u8]) -> Result<Plan, Refusal>
    ensures read { IfOk result (λ plan. workload_in input.now ≡ Ok plan) }
    ensures refused { IfErr result (IsRefusalBy IsLoadFault input.now) }
{
    match parse_plan(alloc, input) {
        Ok(plan) => Ok(plan),
        Err(LoadFault::Bad { place, kind }) => Err(Refusal::Bad {
            place,
            kind: InputKind::Load(kind),
        }),
        Err(LoadFault::NoMemory) => Err(Refusal::NoMemory),
    }
}

// The fault of a record's text or bytes as one of an input.
fn refusal_of(fault: RecordFault) -> Refusal
    ensures { result ≡ refusal_of fault }
{
    match fault {
        RecordFault::Text { place, kind } => Refusal::Bad {
            place,
            kind: InputKind::Line(kind),
        },
        RecordFault::Bytes { place, kind } => Refusal::Bad {
            place,
            kind: InputKind::Bytes(kind),
        },
        RecordFault::NoMemory => Refusal::NoMemory,
    }
}
