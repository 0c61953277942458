//! The links of a workload.
ghost use Rattle.std.specs.Prelude.{◌≡◌, ◌<◌, ◌==◌, IfOk, option_map, map, length, Ok, Err, find};
ghost use Rattle.std.specs.List.{list_any};
ghost use Rattle.serde_json.specs.View.{view};
ghost use Rattle.work_load.specs.Entries.{Tells};
ghost use Rattle.work_load.specs.Links.{link, link_after, plan_by, plans_of};

use crate::entries::{Counts, Entry};
use crate::fault::EntryFault;
use crate::values::{both, listed, natural, number_below};
use link_faults::LinkPlan;
use run_model::LoadKind;
use serde_json::Value;
use std::alloc::Global;
use tact_base::{Items, NoMemory};

/// The greatest number of a link: it names the puts whose number it divides.
pub const EVERY_MAX: u64 = 1_000_000;

/// What the inbox of a replica does with what is put.
#[derive(Clone, Copy, Debug)]
pub(crate) struct Link {
    /// The replica.
    pub(crate) to: u32,
    /// What its inbox does.
    pub(crate) plan: LinkPlan,
}

impl Entry for Link {
    ghost read_after = { λ counts. link_after counts.replicas };

    ghost fits = { λ counts before link. Unit {0} };

    fn read_after(
        _alloc: Global,
        counts: Counts,
        before: &[Self],
        value: &Value,
    ) -> Result<Self, EntryFault> {
        Ok(link_after(before, value, counts.replicas)?)
    }
}

#[tactic(auto, unfolding(crate::specs::Links::link_after))]
fn link_after(before: &[Link], value: &Value, replicas: u32) -> Result<Link, LoadKind>
    requires { 0 < replicas }
    ensures { result ≡ link_after replicas before.now (view value.now) }
{
    let next = link_in(value, replicas)?;
    if leads_to(before, next.to) {
        return Err(LoadKind::Twice);
    }
    Ok(next)
}

// Whether one of the links leads to an inbox.
fn leads_to(links: &[Link], to: u32) -> bool
    ensures { result ≡ list_any (λ link. link.to == to) links.now }
{
    links.iter().any(|link| link.to == to)
}

#[tactic(auto, unfolding(crate::specs::Links::link))]
fn link_in(value: &Value, replicas: u32) -> Result<Link, LoadKind>
    requires { 0 < replicas }
    ensures { result ≡ link replicas (view value.now) }
{
    let [to, lose, double, turn] = listed(value)? else {
        return Err(LoadKind::Shape);
    };
    let lose = natural(lose, 0, EVERY_MAX);
    let double = natural(double, 0, EVERY_MAX);
    let turn = natural(turn, 0, EVERY_MAX);
    let front = both(number_below(to, replicas), lose);
    let ((to, lose), (double, turn)) = both(front, both(double, turn))?;
    let plan = LinkPlan { lose, double, turn };
    Ok(Link { to, plan })
}

// The link that leads to an inbox, if there is one.
fn link_to(links: &[Link], to: u32) -> Option<&Link>
    ensures { option_map (λ link. link.now) result ≡ find (λ link. link.to == to) links.now }
{
    links.iter().find(|link| link.to == to)
}

fn plan_of(links: &[Link], to: u32) -> LinkPlan
    ensures { result ≡ plan_by (find (λ link. link.to == to) links.now) }
{
    match link_to(links, to) {
        Some(link) => link.plan,
        None => LinkPlan::default(),
    }
}

/// What each inbox does with what is put, by replica.
pub(crate) fn plans_of(
    alloc: Global,
    links: &[Link],
    replicas: u32,
) -> Result<Items<LinkPlan>, NoMemory>
    ensures plans { IfOk result (λ plans. plans ≡ plans_of replicas links.now) }
    ensures length { IfOk result (λ plans. length plans ≡ replicas) }
{
    let mut plans = Items::with_capacity(alloc, replicas as usize)?;
    for to in 0..replicas {
        plans.push(plan_of(links, to))?;
    }
    Ok(plans)
}
