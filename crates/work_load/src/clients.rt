//! The clients of a workload.
ghost use Rattle.std.specs.Prelude.{◌≡◌, ◌<◌, ◌≤◌, ℕ, All, IfOk, length, Ok};
ghost use Rattle.std.specs.List.{list_any};
ghost use Rattle.tact_base.specs.declared.limits.TheConstants.{REPLICAS_MAX};
ghost use Rattle.serde_json.specs.View.{view};
ghost use Rattle.work_load.specs.Entries.{Tells};
ghost use Rattle.work_load.specs.Ranges.{IsClientAfter, IsItemOf};
ghost use Rattle.work_load.specs.declared.plan.TheConstants.{ITEMS_MAX};
ghost use Rattle.work_load.specs.Clients.{item_count, items_of, is_of, client_by, client_after};

use crate::entries::{Counts, Entry, entries};
use crate::fault::EntryFault;
use crate::plan::{Client, ITEMS_MAX, Items};
use crate::values::{both, listed, number_below};
use run_model::LoadKind;
use serde_json::Value;
use std::alloc::Global;
use tact_base::CLIENTS;

impl Entry for Client {
    ghost read_after = { λ counts. client_after counts.replicas counts.conits };

    ghost fits = { λ counts. IsClientAfter counts.replicas counts.conits };

    fn read_after(
        alloc: Global,
        counts: Counts,
        before: &[Self],
        value: &Value,
    ) -> Result<Self, EntryFault> {
        client_after(alloc, counts, before, value)
    }
}

#[tactic(auto, unfolding(crate::specs::Clients::client_after))]
fn client_after(
    alloc: Global,
    counts: Counts,
    before: &[Client],
    value: &Value,
) -> Result<Client, EntryFault>
    requires replicas { 0 < counts.replicas }
    requires few { counts.replicas ≤ REPLICAS_MAX }
    requires conits { 0 < counts.conits }
    ensures within { IfOk result (λ client. IsClientAfter counts.replicas counts.conits before.now client) }
    ensures client { Tells (client_after counts.replicas counts.conits before.now (view value.now)) result }
{
    let [replica, number, list] = listed(value)? else {
        return Err(EntryFault::Kind(LoadKind::Shape));
    };
    let replica = number_below(replica, counts.replicas);
    let who = both(replica, number_below(number, CLIENTS));
    let ((replica, client), _count) = both(who, item_count(list))?;
    if is_named(before, replica, client) {
        return Err(EntryFault::Kind(LoadKind::Twice));
    }
    let counts = Counts { replica, ..counts };
    let items = items_of(alloc, counts, list)?;
    Ok(Client {
        replica,
        client,
        items,
    })
}

// How many items there are in a list of at most 1,000.
#[tactic(auto, unfolding(crate::specs::Clients::item_count))]
fn item_count(value: &Value) -> Result<usize, LoadKind>
    ensures count { result ≡ item_count (view value.now) }
    ensures few { IfOk result (λ count. count ≤ ITEMS_MAX) }
{
    let values = listed(value)?;
    if values.len() > ITEMS_MAX {
        return Err(LoadKind::Shape);
    }
    Ok(values.len())
}

fn is_named(clients: &[Client], replica: u32, number: u32) -> bool
    ensures { result ≡ list_any (is_of replica number) clients.now }
{
    clients.iter().any(|client| client.replica == replica && client.client == number)
}

#[tactic(auto, unfolding(crate::specs::Clients::items_of, crate::specs::Clients::item_count))]
fn items_of(alloc: Global, counts: Counts, value: &Value) -> Result<Items, EntryFault>
    requires replicas { 0 < counts.replicas }
    requires few { counts.replicas ≤ REPLICAS_MAX }
    requires conits { 0 < counts.conits }
    ensures length { IfOk result (λ items. (count : ℕ) → item_count (view value.now) ≡ Ok count → length items ≡ count) }
    ensures within { IfOk result (λ items. All (IsItemOf counts.replicas counts.conits counts.replica) items) }
    ensures items { Tells (items_of counts.replicas counts.conits counts.replica (view value.now)) result }
{
    let values = listed(value)?;
    Ok(entries(alloc, 0, counts, values)?)
}
