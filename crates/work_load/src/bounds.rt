//! The bounds of a workload, and the setup that they make.
ghost use Rattle.std.specs.Prelude.{◌≡◌, ◌<◌, ◌≤◌, ◌+◌, ◌*◌, ◌/◌, ◌%◌, ◌==◌, ◌++◌, All, IfOk, OnOk, MatchResult, get_or, length, take, map, sum, nat_lt, option_map, find, None, Ok, Err, if◌then◌else◌};
ghost use Rattle.std.specs.List.{list_any};
ghost use Rattle.tact_base.specs.Setup.{IsSetup};
ghost use Rattle.tact_base.specs.declared.limits.TheConstants.{ALPHA_MAX, REPLICAS_MAX, CONITS_MAX};
ghost use Rattle.serde_json.specs.View.{view};
ghost use Rattle.work_load.specs.Values.{all_of, natural};
ghost use Rattle.work_load.specs.Entries.{Tells};
ghost use Rattle.work_load.specs.Ranges.{IsBoundOf};
ghost use Rattle.work_load.specs.Bounds.{loans, bound, bound_after, bound_of, binds, alpha_by, loans_by, alphas_of, loans_of, setup_of};

use crate::entries::{Counts, Entry};
use crate::fault::EntryFault;
use crate::values::{both, earliest, listed, natural, number_below};
use run_model::{Config, ConfigFault, LoadKind, is_passed_by};
use serde_json::Value;
use std::alloc::Global;
use tact_base::{ALPHA_MAX, NoMemory, Numbers, REPLICAS_MAX, Row};

/// The alpha of an owner on a conit where no bound says it.
const ALPHA: u64 = 1_000_000;

/// What an owner lends to each other replica on a conit where no bound says it.
const LOAN: u64 = 100_000;

/// The alpha of an owner on a conit, and what it lends there to each holder.
#[derive(Clone, Copy, Debug)]
pub(crate) struct Bound {
    pub(crate) owner: u32,
    pub(crate) conit: u32,
    pub(crate) alpha: u64,
    pub(crate) loans: Row,
}

impl Entry for Bound {
    ghost read_after = { λ counts. bound_after counts.replicas counts.conits };

    ghost fits = { λ counts before. IsBoundOf counts.replicas };

    fn read_after(
        _alloc: Global,
        counts: Counts,
        before: &[Self],
        value: &Value,
    ) -> Result<Self, EntryFault> {
        Ok(bound_after(before, value, counts.replicas, counts.conits)?)
    }
}

#[tactic(auto, unfolding(crate::specs::Bounds::bound_after))]
fn bound_after(
    before: &[Bound],
    value: &Value,
    replicas: u32,
    conits: u32,
) -> Result<Bound, LoadKind>
    requires replicas { 0 < replicas }
    requires few { replicas ≤ REPLICAS_MAX }
    requires conits { 0 < conits }
    ensures bound { result ≡ bound_after replicas conits before.now (view value.now) }
    ensures within { IfOk result (λ bound. IsBoundOf replicas bound) }
{
    let next = bound_in(value, replicas, conits)?;
    if is_bound(before, next.owner, next.conit) {
        return Err(LoadKind::Twice);
    }
    if is_passed_by(next.loans.items(), next.alpha) {
        return Err(LoadKind::LoansOver);
    }
    Ok(next)
}

// Whether one of the bounds binds an owner on a conit.
fn is_bound(bounds: &[Bound], owner: u32, conit: u32) -> bool
    ensures { result ≡ list_any (binds owner conit) bounds.now }
{
    bounds
        .iter()
        .any(|bound| bound.owner == owner && bound.conit == conit)
}

#[tactic(auto, unfolding(crate::specs::Bounds::bound))]
fn bound_in(value: &Value, replicas: u32, conits: u32) -> Result<Bound, LoadKind>
    requires replicas { 0 < replicas }
    requires few { replicas ≤ REPLICAS_MAX }
    requires conits { 0 < conits }
    ensures bound { result ≡ bound replicas conits (view value.now) }
    ensures holders { IfOk result (λ bound. length bound.loans ≡ replicas) }
    ensures alpha { IfOk result (λ bound. bound.alpha ≤ ALPHA_MAX) }
    ensures own { IfOk result (λ bound. get_or bound.loans bound.owner 0 ≡ 0) }
{
    let [owner, conit, alpha, row] = listed(value)? else {
        return Err(LoadKind::Shape);
    };
    let place = both(number_below(owner, replicas), number_below(conit, conits));
    let numbers = both(natural(alpha, 0, ALPHA_MAX), loans(row, replicas));
    let ((owner, conit), (alpha, loans)) = both(place, numbers)?;
    if loans.items()[owner as usize] > 0 {
        return Err(LoadKind::Range);
    }
    Ok(Bound {
        owner,
        conit,
        alpha,
        loans,
    })
}

// A loan for each holder.
#[tactic(auto, unfolding(crate::specs::Bounds::loans))]
fn loans(value: &Value, replicas: u32) -> Result<Row, LoadKind>
    requires { replicas ≤ REPLICAS_MAX }
    ensures loans { result ≡ loans replicas (view value.now) }
    ensures length { IfOk result (λ row. length row ≡ replicas) }
{
    let values = listed(value)?;
    if values.len() != replicas as usize {
        return Err(LoadKind::Shape);
    }
    let mut row = [0; REPLICAS_MAX as usize];
    fill(&mut row, values)?;
    Ok(Row::new(&row[..values.len()]))
}

// Reads loans into the front of a row, and then all of them stand together.
fn fill(row: &mut [u64], values: &[Value]) -> Result<(), LoadKind>
    requires few { length values.now ≤ length row.old }
    ensures length { length row.new ≡ length row.old }
    ensures read { MatchResult result
        (λ _. all_of (natural 0 ALPHA_MAX) (map view values.now) ≡ Ok (take (length values.now) row.new))
        (λ kind. all_of (natural 0 ALPHA_MAX) (map view values.now) ≡ Err kind) }
{
    let mut fault = None;
    for place in 0..values.len() {
        match natural(&values[place], 0, ALPHA_MAX) {
            Ok(loan) => row[place] = loan,
            Err(kind) => fault = Some(earliest(fault, kind)),
        }
    }
    match fault {
        Some(kind) => Err(kind),
        None => Ok(()),
    }
}

// The bound of an owner on a conit, if there is one.
fn bound_of(bounds: &[Bound], owner: u32, conit: u32) -> Option<&Bound>
    ensures { option_map (λ bound. bound.now) result ≡ bound_of bounds.now owner conit }
{
    bounds
        .iter()
        .find(|bound| bound.owner == owner && bound.conit == conit)
}

fn alpha_in(bounds: &[Bound], owner: u32, conit: u32) -> u64
    ensures { result ≡ alpha_by (bound_of bounds.now owner conit) }
{
    match bound_of(bounds, owner, conit) {
        Some(bound) => bound.alpha,
        None => ALPHA,
    }
}

// What an owner lends to a holder where no bound says it.
fn loan_to(holder: u32, owner: u32) -> u64
    ensures { result ≡ (if holder == owner then 0 else 100000) }
{
    if holder == owner { 0 } else { LOAN }
}

// Appends what an owner lends to each holder where no bound says it.
#[tactic(auto, using(tact_base::proofs::RangeLists::mapped_more))]
fn push_loans(list: &mut Numbers, replicas: u32, owner: u32) -> Result<(), NoMemory>
    ensures { IfOk result (λ _. list.new ≡ list.old ++ loans_by replicas owner None) }
{
    for holder in 0..replicas {
        list.push(loan_to(holder, owner))?;
    }
    Ok(())
}

// Appends the loans of an owner on a conit.
fn push_row(
    list: &mut Numbers,
    replicas: u32,
    bounds: &[Bound],
    owner: u32,
    conit: u32,
) -> Result<(), NoMemory>
    ensures { IfOk result (λ _. list.new ≡ list.old ++ loans_by replicas owner (bound_of bounds.now owner conit)) }
{
    match bound_of(bounds, owner, conit) {
        Some(bound) => list.append(bound.loans.items()),
        None => push_loans(list, replicas, owner),
    }
}

fn alphas_of(
    alloc: Global,
    replicas: u32,
    conits: u32,
    bounds: &[Bound],
) -> Result<Numbers, NoMemory>
    requires few_replicas { replicas ≤ REPLICAS_MAX }
    requires few_conits { conits ≤ CONITS_MAX }
    ensures { IfOk result (λ list. list ≡ alphas_of replicas conits bounds.now) }
{
    let mut list = Numbers::new(alloc);
    for place in 0..replicas * conits {
        list.push(alpha_in(bounds, place / conits, place % conits))?;
    }
    Ok(list)
}

#[tactic(auto, using(tact_base::proofs::RangeLists::flat_map_range_more))]
fn loans_of(
    alloc: Global,
    replicas: u32,
    conits: u32,
    bounds: &[Bound],
) -> Result<Numbers, NoMemory>
    requires few_replicas { replicas ≤ REPLICAS_MAX }
    requires few_conits { conits ≤ CONITS_MAX }
    ensures { IfOk result (λ list. list ≡ loans_of replicas conits bounds.now) }
{
    let mut list = Numbers::new(alloc);
    for place in 0..replicas * conits {
        push_row(&mut list, replicas, bounds, place / conits, place % conits)?;
    }
    Ok(list)
}

/// The setup that bounds make.
pub(crate) fn setup_of(
    alloc: Global,
    replicas: u32,
    conits: u32,
    bounds: &[Bound],
) -> Result<Config, NoMemory>
    requires least { 2 ≤ replicas }
    requires few_replicas { replicas ≤ REPLICAS_MAX }
    requires conits { 1 ≤ conits }
    requires few_conits { conits ≤ CONITS_MAX }
    requires bounds { All (IsBoundOf replicas) bounds.now }
    ensures setup { IfOk result (λ config. config ≡ setup_of replicas conits bounds.now) }
    ensures sound { OnOk result (IsSetup (setup_of replicas conits bounds.now)) }
{
    let alphas = alphas_of(alloc, replicas, conits, bounds)?;
    let loans = loans_of(alloc, replicas, conits, bounds)?;
    match Config::new(alloc, replicas, conits, alphas.items(), loans.items()) {
        Ok(config) => Ok(config),
        Err(ConfigFault::NoMemory) => Err(NoMemory),
        Err(_) => unreachable!(),
    }
}
