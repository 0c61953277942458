ghost use Rattle.std.specs.Prelude.{◌≡◌, ◌≤◌, ◌<◌, ◌+◌, ◌*◌, ℕ, true, None, Some, IfSome, MatchResult, IfOk, length, sum, nat_lt, slice_index, slice_range};
ghost use Rattle.tact_base.specs.declared.limits.TheConstants.{ALPHA_MAX};
ghost use Rattle.tact_base.specs.Setup.{are_counts_good, row_fault, first_row_fault, config_fault, setup, IsSetup, IsRefusalOf, alpha_of, loan_of, loans_of};

use std::alloc::Global;
use std::marker::Model;
use tact_base::{
    ALPHA_MAX, CONITS_MAX, ConfigFault, NoMemory, Numbers, REPLICAS_MAX, REPLICAS_MIN,
};

/// What a run is made for: the counts of replicas and conits, and for each owner and conit its alpha and
/// the part of it that each holder is lent at the opening. Alphas and loans are in units of weight.
#[derive(Debug, Drop)]
pub struct Config {
    replicas: u32,
    conits: u32,
    alphas: Numbers,
    loans: Numbers,
}

impl Model for Config {
    ghost use Rattle.tact_base.specs.Setup.{Setup, IsSetup};

    ghost Value = { Setup };

    ghost view = { λ c. record { replicas = c.replicas; conits = c.conits; alphas = c.alphas; loans = c.loans } };

    ghost invariant = { λ c. IsSetup (record { replicas = c.replicas; conits = c.conits; alphas = c.alphas; loans = c.loans }) };
}

impl Config {
    /// The setup of these counts. `alphas` stand by owner and then conit, `loans` by owner, conit and
    /// holder. The refusals, in this order: `BadCount`; of the first owner and conit at fault `AlphaOver`,
    /// `OwnLoan`, `LoansOver`; `NoMemory`.
    pub fn new(
        alloc: Global,
        replicas: u32,
        conits: u32,
        alphas: &[u64],
        loans: &[u64],
    ) -> Result<Config, ConfigFault>
        ensures { MatchResult result
            (λ config. (config_fault replicas conits alphas.now loans.now ≡ None)
            × (config ≡ setup replicas conits alphas.now loans.now))
            (IsRefusalOf (config_fault replicas conits alphas.now loans.now)) }
    {
        if !are_counts_good(replicas, conits, alphas, loans) {
            return Err(ConfigFault::BadCount);
        }
        if let Some(fault) = first_row_fault(replicas, conits, alphas, loans) {
            return Err(fault);
        }
        Ok(Config {
            replicas,
            conits,
            alphas: Numbers::from_slice(alloc, alphas)?,
            loans: Numbers::from_slice(alloc, loans)?,
        })
    }

    /// The count of replicas.
    pub fn replicas(&self) -> u32
        ensures count { result ≡ self.now.replicas }
        ensures low { 2 ≤ result }
        ensures high { result ≤ 8 }
        ensures sound { IsSetup self.now }
    {
        self.replicas
    }

    /// The count of conits.
    pub fn conits(&self) -> u32
        ensures count { result ≡ self.now.conits }
        ensures low { 1 ≤ result }
        ensures high { result ≤ 16 }
        ensures sound { IsSetup self.now }
    {
        self.conits
    }

    /// The alpha of the owner on the conit.
    pub fn alpha(&self, owner: u32, conit: u32) -> u64
        requires owner_in { owner < self.now.replicas }
        requires conit_in { conit < self.now.conits }
        ensures alpha { result ≡ alpha_of self.now owner conit }
        ensures limit { result ≤ ALPHA_MAX }
    {
        let place = owner as usize * self.conits as usize + conit as usize;
        self.alphas.items()[place]
    }

    /// What the owner lends to the holder on the conit at the opening.
    pub fn loan(&self, owner: u32, conit: u32, holder: u32) -> u64
        requires owner_in { owner < self.now.replicas }
        requires conit_in { conit < self.now.conits }
        requires holder_in { holder < self.now.replicas }
        ensures { result ≡ loan_of self.now owner conit holder }
    {
        self.loans(owner, conit)[holder as usize]
    }

    /// What the owner lends on the conit at the opening, by holder.
    pub fn loans(&self, owner: u32, conit: u32) -> &[u64]
        requires owner_in { owner < self.now.replicas }
        requires conit_in { conit < self.now.conits }
        ensures loans { result.now ≡ loans_of self.now owner conit }
        ensures len { length result.now ≡ self.now.replicas }
        ensures own { slice_index result.now owner ≡ 0 }
        ensures total { sum result.now ≤ alpha_of self.now owner conit }
    {
        let place = owner as usize * self.conits as usize + conit as usize;
        row(self.loans.items(), self.replicas, place)
    }

    /// The alphas, by owner and then conit.
    pub fn alphas(&self) -> &[u64]
        ensures { result.now ≡ self.now.alphas }
    {
        self.alphas.items()
    }

    /// What is lent at the opening, by owner, conit and holder.
    pub fn opening_loans(&self) -> &[u64]
        ensures { result.now ≡ self.now.loans }
    {
        self.loans.items()
    }

    /// A setup equal to this one, in memory of `alloc`.
    pub fn copy(&self, alloc: Global) -> Result<Config, NoMemory>
        ensures { IfOk result (λ config. config ≡ self.now) }
    {
        Ok(Config {
            replicas: self.replicas,
            conits: self.conits,
            alphas: Numbers::from_slice(alloc, self.alphas.items())?,
            loans: Numbers::from_slice(alloc, self.loans.items())?,
        })
    }
}

fn are_counts_good(replicas: u32, conits: u32, alphas: &[u64], loans: &[u64]) -> bool
    ensures { result ≡ are_counts_good (setup replicas conits alphas.now loans.now) }
{
    if replicas < REPLICAS_MIN || replicas > REPLICAS_MAX || conits < 1 || conits > CONITS_MAX {
        return false;
    }
    let rows = replicas as usize * conits as usize;
    alphas.len() == rows && loans.len() == rows * replicas as usize
}

fn first_row_fault(replicas: u32, conits: u32, alphas: &[u64], loans: &[u64]) -> Option<ConfigFault>
    requires { are_counts_good (setup replicas conits alphas.now loans.now) ≡ true }
    ensures first { result ≡ first_row_fault (setup replicas conits alphas.now loans.now) }
    ensures own { IfSome result (λ fault. IsRefusalOf (Some fault) fault) }
{
    for place in 0..replicas * conits {
        let loans = row(loans, replicas, place as usize);
        let fault = row_fault(
            place / conits,
            place % conits,
            alphas[place as usize],
            loans,
        );
        if fault.is_some() {
            return fault;
        }
    }
    None
}

// The loans, by holder, of the owner and conit at this place.
fn row(loans: &[u64], replicas: u32, place: usize) -> &[u64]
    requires { place * replicas + replicas ≤ length loans.now }
    ensures { result.now ≡ slice_range loans.now (place * replicas) (place * replicas + replicas) }
{
    let start = place * replicas as usize;
    &loans[start..start + replicas as usize]
}

fn row_fault(owner: u32, conit: u32, alpha: u64, loans: &[u64]) -> Option<ConfigFault>
    requires { owner < length loans.now }
    ensures fault { result ≡ row_fault owner conit alpha loans.now }
    ensures own { IfSome result (λ fault. IsRefusalOf (Some fault) fault) }
{
    if alpha > ALPHA_MAX {
        Some(ConfigFault::AlphaOver { owner, conit })
    } else if loans[owner as usize] > 0 {
        Some(ConfigFault::OwnLoan { owner, conit })
    } else if is_passed_by(loans, alpha) {
        Some(ConfigFault::LoansOver { owner, conit })
    } else {
        None
    }
}

/// Whether loans add up to more than alpha. Their sum may pass what a u64 holds. Takes no memory.
pub fn is_passed_by(loans: &[u64], alpha: u64) -> bool
    ensures { result ≡ nat_lt alpha (sum loans.now) }
{
    let mut left = alpha;
    for loan in loans {
        match left.checked_sub(*loan) {
            Some(less) => left = less,
            None => return true,
        }
    }
    false
}
