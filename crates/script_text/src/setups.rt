//! The setup of a script: what its `start` line makes, and what its `bound` lines change.
ghost use Rattle.std.specs.Prelude.{◌≡◌, ◌+◌, ◌<◌, ◌≤◌, ◌++◌, ◌==◌, false, length, OnOk, IfOk, Ok, Err, if◌then◌else◌};
ghost use Rattle.std.specs.List.{flat_map, range_with_len};
ghost use Rattle.tact_base.specs.declared.limits.TheConstants.{CONITS_MAX, REPLICAS_MAX};
ghost use Rattle.tact_base.specs.Setup.{setup, IsSetup};
ghost use Rattle.run_model.specs.declared.status.LineKind.TheVariants.{LoansOver};
ghost use Rattle.run_record.specs.Fields.{Gives};
ghost use Rattle.script_text.specs.Setups.{opening, opening_row, opening_loans, replaced, bounded, is_over};

use run_model::{Config, ConfigFault, LineKind};
use run_record::LineFault;
use std::alloc::Global;
use tact_base::{CONITS_MAX, NoMemory, Numbers, REPLICAS_MAX};

// What an owner lends to a holder: nothing to itself.
fn loan_to(loan: u64, owner: u32, holder: u32) -> u64
    ensures { result ≡ (if holder == owner then 0 else loan) }
{
    if holder == owner { 0 } else { loan }
}

// Appends what an owner lends to each holder.
fn push_row(list: &mut Numbers, replicas: u32, loan: u64, owner: u32) -> Result<(), NoMemory>
    ensures { IfOk result (λ _. list.new ≡ list.old ++ opening_row replicas loan owner) }
{
    for holder in 0..replicas {
        list.push(loan_to(loan, owner, holder))?;
    }
    Ok(())
}

// Appends what an owner lends on all conits.
fn push_rows(
    list: &mut Numbers,
    replicas: u32,
    conits: u32,
    loan: u64,
    owner: u32,
) -> Result<(), NoMemory>
    ensures { IfOk result (λ _. list.new ≡ list.old ++ flat_map (λ conit. opening_row replicas loan owner) (range_with_len 0 conits)) }
{
    for _ in 0..conits {
        push_row(list, replicas, loan, owner)?;
    }
    Ok(())
}

#[tactic(auto, using(tact_base::proofs::RangeLists::flat_map_range_more))]
fn opening_loans(alloc: Global, replicas: u32, conits: u32, loan: u64) -> Result<Numbers, NoMemory>
    ensures { IfOk result (λ list. list ≡ opening_loans replicas conits loan) }
{
    let mut list = Numbers::new(alloc);
    for owner in 0..replicas {
        push_rows(&mut list, replicas, conits, loan, owner)?;
    }
    Ok(list)
}

// The setup of these counts, alphas and loans, where it isn't refused.
fn config_of(
    alloc: Global,
    replicas: u32,
    conits: u32,
    alphas: &[u64],
    loans: &[u64],
) -> Result<Config, LineFault>
    ensures ok { IfOk result (λ config. config ≡ setup replicas conits alphas.now loans.now) }
    ensures sound { OnOk result (IsSetup (setup replicas conits alphas.now loans.now)) }
    ensures fault { Gives (λ _. false) result
        (if is_over (setup replicas conits alphas.now loans.now) then Err LoansOver else Ok false) }
{
    match Config::new(alloc, replicas, conits, alphas, loans) {
        Ok(config) => Ok(config),
        Err(ConfigFault::NoMemory) => Err(LineFault::NoMemory),
        Err(_) => Err(LineFault::Kind(LineKind::LoansOver)),
    }
}

/// The setup that a `start` line makes, where it isn't refused.
pub(crate) fn opening(
    alloc: Global,
    replicas: u32,
    conits: u32,
    alpha: u64,
    loan: u64,
) -> Result<Config, LineFault>
    requires few_replicas { replicas ≤ REPLICAS_MAX }
    requires few_conits { conits ≤ CONITS_MAX }
    ensures ok { IfOk result (λ config. config ≡ opening replicas conits alpha loan) }
    ensures sound { OnOk result (IsSetup (opening replicas conits alpha loan)) }
    ensures fault { Gives (λ _. false) result (if is_over (opening replicas conits alpha loan) then Err LoansOver else Ok false) }
{
    let alphas = Numbers::filled(alloc, alpha, replicas * conits)?;
    let loans = opening_loans(alloc, replicas, conits, loan)?;
    config_of(alloc, replicas, conits, alphas.items(), loans.items())
}

// The numbers, where those from a place on are replaced by a row.
fn replaced(alloc: Global, numbers: &[u64], start: usize, row: &[u64]) -> Result<Numbers, NoMemory>
    requires { start + length row.now ≤ length numbers.now }
    ensures { IfOk result (λ list. list ≡ replaced numbers.now start row.now) }
{
    let mut list = Numbers::from_slice(alloc, &numbers[..start])?;
    list.append(row)?;
    list.append(&numbers[start + row.len()..])?;
    Ok(list)
}

/// The setup where a `bound` line sets the alpha and all loans of an owner on a conit, where it isn't refused.
#[tactic(auto, unfolding(crate::specs::Setups::bounded))]
pub(crate) fn bounded(
    alloc: Global,
    config: &Config,
    owner: u32,
    conit: u32,
    alpha: u64,
    loan: u64,
) -> Result<Config, LineFault>
    requires owner_in { owner < config.now.replicas }
    requires conit_in { conit < config.now.conits }
    ensures ok { IfOk result (λ bound. bound ≡ bounded config.now owner conit alpha loan) }
    ensures sound { OnOk result (IsSetup (bounded config.now owner conit alpha loan)) }
    ensures fault { Gives (λ _. false) result
        (if is_over (bounded config.now owner conit alpha loan) then Err LoansOver else Ok false) }
{
    let replicas = config.replicas();
    let conits = config.conits();
    let place = owner as usize * conits as usize + conit as usize;
    let mut row = Numbers::new(alloc);
    push_row(&mut row, replicas, loan, owner)?;
    let alphas = replaced(alloc, config.alphas(), place, &[alpha])?;
    let start = place * replicas as usize;
    let loans = replaced(alloc, config.opening_loans(), start, row.items())?;
    config_of(alloc, replicas, conits, alphas.items(), loans.items())
}
