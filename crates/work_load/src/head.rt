//! What a workload says before its clients.
ghost use Rattle.std.specs.Prelude.{◌≡◌, ◌<◌, ◌≤◌, [], length, option_map, string_bytes, IfOk};
ghost use Rattle.std.specs.List.{list_all};
ghost use Rattle.std.specs.Map.{keys_of};
ghost use Rattle.tact_base.specs.declared.limits.TheConstants.{REPLICAS_MAX, CONITS_MAX};
ghost use Rattle.work_load.specs.declared.plan.TheConstants.{SETTLE_MAX};
ghost use Rattle.serde_json.specs.Find.{as_object};
ghost use Rattle.serde_json.specs.View.{view};
ghost use Rattle.work_load.specs.Entries.{Tells, EachAfter};
ghost use Rattle.work_load.specs.Workloads.{is_name, has_names, count, entries_or_none, rounds, head_after, head_of};

use crate::bounds::{Bound, setup_of};
use crate::entries::{Counts, Entry, entries};
use crate::fault::EntryFault;
use crate::links::{Link, plans_of};
use crate::plan::SETTLE_MAX;
use crate::values::{listed, natural};
use link_faults::LinkPlan;
use run_model::{Config, LoadKind};
use serde_json::{Map, Value};
use std::alloc::Global;
use std::marker::Model;
use tact_base::{CONITS_MAX, Items, REPLICAS_MAX, REPLICAS_MIN};

/// What a workload says before its clients.
#[derive(Drop)]
pub(crate) struct Head {
    /// What the run is made for.
    pub(crate) config: Config,
    /// What each inbox does with what is put, by replica.
    pub(crate) links: Items<LinkPlan>,
    /// How many rounds settle the run.
    pub(crate) settle: u64,
}

impl Model for Head {
    ghost use Rattle.std.specs.Prelude.{◌≡◌, ◌≤◌, length};
    ghost use Rattle.work_load.specs.Workloads.{Head as HeadView};
    ghost use Rattle.work_load.specs.declared.plan.TheConstants.{SETTLE_MAX};

    ghost Value = { HeadView };

    ghost view = { λ h. record { setup = h.config; links = h.links; settle = h.settle } };

    ghost invariant = { λ h. (length h.links ≡ h.config.replicas) × (h.settle ≤ SETTLE_MAX) };
}

fn is_name(name: &str) -> bool
    ensures { result ≡ is_name name.now }
{
    name == "replicas"
        || name == "conits"
        || name == "bounds"
        || name == "links"
        || name == "settle"
        || name == "clients"
}

// Whether an object has no other names.
fn are_names(members: &Map<String, Value>) -> bool
    ensures { result ≡ list_all (λ name. is_name (string_bytes name)) (keys_of members.now.entries) }
{
    members.keys().all(|name| is_name(name))
}

// Whether a value is an object that has no other names.
fn has_names(value: &Value) -> bool
    ensures { result ≡ has_names (as_object (view value.now)) }
{
    match value.as_object() {
        Some(members) => are_names(members),
        None => false,
    }
}

// A count, which must be there.
fn count(found: Option<&Value>, least: u32, most: u32) -> Result<u32, LoadKind>
    ensures count { result ≡ count least most (option_map (λ v. view v.now) found.entry) }
    ensures low { IfOk result (λ number. least ≤ number) }
    ensures high { IfOk result (λ number. number ≤ most) }
{
    match found {
        Some(value) => Ok(natural(value, u64::from(least), u64::from(most))? as u32),
        None => Err(LoadKind::Shape),
    }
}

// The entries of a list that may be missing.
fn entries_or_none<T: Entry>(
    alloc: Global,
    counts: Counts,
    found: Option<&Value>,
) -> Result<Items<T>, EntryFault>
    requires replicas { 0 < counts.replicas }
    requires few { counts.replicas ≤ REPLICAS_MAX }
    requires conits { 0 < counts.conits }
    ensures read { Tells (entries_or_none (T.read_after counts) (option_map (λ v. view v.now) found.entry)) result }
    ensures within { IfOk result (λ list. EachAfter (T.fits counts) [] list) }
{
    match found {
        Some(value) => Ok(entries(alloc, 0, counts, listed(value)?)?),
        None => Ok(Items::new(alloc)),
    }
}

// A count of rounds, which may be missing.
fn rounds(found: Option<&Value>) -> Result<u64, LoadKind>
    ensures few { IfOk result (λ settle. settle ≤ SETTLE_MAX) }
    ensures rounds { result ≡ rounds (option_map (λ v. view v.now) found.entry) }
{
    match found {
        Some(value) => natural(value, 0, SETTLE_MAX),
        None => Ok(0),
    }
}

#[tactic(auto, unfolding(crate::specs::Workloads::head_after))]
fn head_after(alloc: Global, replicas: u32, conits: u32, value: &Value) -> Result<Head, EntryFault>
    requires replicas { 2 ≤ replicas }
    requires few_replicas { replicas ≤ REPLICAS_MAX }
    requires conits { 0 < conits }
    requires few_conits { conits ≤ CONITS_MAX }
    ensures { Tells (head_after replicas conits (view value.now)) result }
{
    let counts = Counts {
        replicas,
        conits,
        replica: 0,
    };
    let bounds: Items<Bound> = entries_or_none(alloc, counts, value.get("bounds"))?;
    let links: Items<Link> = entries_or_none(alloc, counts, value.get("links"))?;
    let settle = rounds(value.get("settle"))?;
    Ok(Head {
        config: setup_of(alloc, replicas, conits, bounds.items())?,
        links: plans_of(alloc, links.items(), replicas)?,
        settle,
    })
}

/// What a value says before its clients, if it is a workload up to there.
#[tactic(auto, unfolding(crate::specs::Workloads::head_of))]
pub(crate) fn head_of(alloc: Global, value: &Value) -> Result<Head, EntryFault>
    ensures { Tells (head_of (view value.now)) result }
{
    if !has_names(value) {
        return Err(EntryFault::Kind(LoadKind::Shape));
    }
    let replicas = count(value.get("replicas"), REPLICAS_MIN, REPLICAS_MAX)?;
    let conits = count(value.get("conits"), 1, CONITS_MAX)?;
    head_after(alloc, replicas, conits, value)
}
