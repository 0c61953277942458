ghost use Rattle.std.specs.Prelude.{◌≡◌, ◌<◌, IfOk};
ghost use Rattle.tact_base.specs.Setup.{loan_of};
ghost use Rattle.split_budget.specs.Budgets.{IsBudget, setup_of, by_place};

use crate::Budget;
use std::alloc::Global;
use tact_base::{NoMemory, Numbers};

/// An opening equal to this one.
pub(crate) fn copy(alloc: Global, config: &Budget) -> Result<Budget, NoMemory>
    ensures { IfOk result (λ copy. copy ≡ config.now) }
{
    Ok(Budget {
        replica: config.replica,
        replicas: config.replicas,
        conits: config.conits,
        alphas: Numbers::from_slice(alloc, config.alphas.items())?,
        loans: Numbers::from_slice(alloc, config.loans.items())?,
    })
}

/// What the replica lends at the opening, by holder and then conit.
pub(crate) fn lent(alloc: Global, config: &Budget) -> Result<Vec<u64>, NoMemory>
    requires { IsBudget config.now }
    ensures { IfOk result (λ list. list.items ≡ by_place (setup_of config.now)
        (λ holder conit. loan_of (setup_of config.now) config.now.replica conit holder)) }
{
    let (conits, replica) = (config.conits, config.replica);
    Ok(
        (0..config.replicas * conits)
            .map(|place| loan(config, replica, place % conits, place / conits))
            .collect(alloc)?,
    )
}

/// What the replica is lent at the opening, by owner and then conit.
pub(crate) fn lent_known(alloc: Global, config: &Budget) -> Result<Vec<u64>, NoMemory>
    requires { IsBudget config.now }
    ensures { IfOk result (λ list. list.items ≡ by_place (setup_of config.now)
        (λ owner conit. loan_of (setup_of config.now) owner conit config.now.replica)) }
{
    let (conits, replica) = (config.conits, config.replica);
    Ok(
        (0..config.replicas * conits)
            .map(|place| loan(config, place / conits, place % conits, replica))
            .collect(alloc)?,
    )
}

// What the owner lends the holder on the conit at the opening.
fn loan(config: &Budget, owner: u32, conit: u32, holder: u32) -> u64
    requires sound { IsBudget config.now }
    requires owner { owner < config.now.replicas }
    requires conit { conit < config.now.conits }
    requires holder { holder < config.now.replicas }
    ensures { result ≡ loan_of (setup_of config.now) owner conit holder }
{
    let row = config.place_of(owner, conit);
    config.loans.items()[row * config.replicas as usize + holder as usize]
}
