ghost use Rattle.std.specs.Prelude.{◌≡◌, ◌*◌, ◌<◌, length, map, slice_index};
ghost use Rattle.tact_base.specs.Setup.{place_of, conits_of};
ghost use Rattle.split_budget.specs.Budgets.{setup_of};

use tact_base::Numbers;

/// What the budgets of a replica begin with. Alphas and loans are in units of weight.
#[derive(Debug, Drop)]
pub struct Budget {
    /// The replica whose budgets these are.
    pub replica: u32,
    /// The count of replicas.
    pub replicas: u32,
    /// The count of conits.
    pub conits: u32,
    /// The bound of each owner on each conit, by owner and then conit.
    pub alphas: Numbers,
    /// What of its bound an owner lends at the opening, by owner, conit and holder.
    pub loans: Numbers,
}

impl Budget {
    // Where the numbers of a replica on a conit stand.
    pub(crate) fn place_of(&self, replica: u32, conit: u32) -> usize
        ensures { result ≡ place_of (setup_of self.now) replica conit }
    {
        replica as usize * self.conits as usize + conit as usize
    }

    // The numbers of a replica, by conit.
    pub(crate) fn row<'a>(&self, numbers: &'a [u64], replica: u32) -> &'a [u64]
        requires sized { length numbers.now ≡ self.now.replicas * self.now.conits }
        requires replica { replica < self.now.replicas }
        ensures { result.now ≡ map (λ conit. slice_index numbers.now (place_of (setup_of self.now) replica conit)) (conits_of (setup_of self.now)) }
    {
        let first = self.place_of(replica, 0);
        &numbers[first..first + self.conits as usize]
    }
}
