//! The reader of workloads.
ghost use Rattle.std.specs.Prelude.{◌≡◌, ◌<◌, IfOk, length, map, option_map, MatchResult, Ok, Err};
ghost use Rattle.serde_json.specs.View.{view};
ghost use Rattle.work_load.specs.Entries.{TellsAt};
ghost use Rattle.work_load.specs.Workloads.{client_values, workload_of, workload_in};

use crate::entries::{Counts, entries, placed};
use crate::fault::LoadFault;
use crate::head::head_of;
use crate::plan::{Client, Plan};
use crate::values::listed;
use run_model::LoadKind;
use serde_json::Value;
use std::alloc::Global;
use tact_base::Items;

/// The plan of a workload.
///
/// The bytes are one JSON object. `Bad` is the first fault; the place is 0 outside the entries of `clients`, else 1 and
/// the position of the client, counted from 0. `NoMemory` is want of memory. The grammar is in docs/FORMATS.md.
#[tactic(auto, unfolding(crate::specs::Workloads::workload_in))]
pub fn parse_plan(alloc: Global, bytes: &[u8]) -> Result<Plan, LoadFault>
    ensures { TellsAt (workload_in bytes.now) result }
{
    match Value::from_slice(alloc, bytes) {
        Ok(value) => plan_of(alloc, &value),
        Err(error) if error.is_memory() => Err(LoadFault::NoMemory),
        Err(_) => Err(LoadFault::Bad {
            place: 0,
            kind: LoadKind::NotJson,
        }),
    }
}

// The values of at least one client.
#[tactic(auto, unfolding(crate::specs::Workloads::client_values))]
fn client_values(found: Option<&Value>) -> Result<&[Value], LoadKind>
    ensures some { IfOk result (λ values. 0 < length values.now) }
    ensures values { MatchResult result
        (λ values. client_values (option_map (λ v. view v.now) found.entry) ≡ Ok (map view values.now))
        (λ kind. client_values (option_map (λ v. view v.now) found.entry) ≡ Err kind) }
{
    let Some(value) = found else {
        return Err(LoadKind::Shape);
    };
    let values = listed(value)?;
    if values.is_empty() {
        return Err(LoadKind::Shape);
    }
    Ok(values)
}

#[tactic(auto, unfolding(crate::specs::Workloads::workload_of))]
fn plan_of(alloc: Global, value: &Value) -> Result<Plan, LoadFault>
    ensures { TellsAt (workload_of (view value.now)) result }
{
    let head = match head_of(alloc, value) {
        Ok(head) => head,
        Err(fault) => return Err(placed(fault, 0)),
    };
    let values = match client_values(value.get("clients")) {
        Ok(values) => values,
        Err(kind) => return Err(LoadFault::Bad { place: 0, kind }),
    };
    let counts = Counts {
        replicas: head.config.replicas(),
        conits: head.config.conits(),
        replica: 0,
    };
    let clients: Items<Client> = entries(alloc, 1, counts, values)?;
    Ok(Plan {
        config: head.config,
        links: head.links,
        settle: head.settle,
        clients,
    })
}
