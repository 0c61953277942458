ghost use Rattle.std.specs.Prelude.{◌≡◌, ◌<◌, ◌≤◌, All, length, sum};
ghost use Rattle.tact_base.specs.Admission.{first_over_part};
ghost use Rattle.tact_base.specs.declared.limits.TheConstants.{REPLICAS_MIN, REPLICAS_MAX};
ghost use Rattle.access_gate.specs.Verdicts.{AreOuts, admission, refusal};

use tact_base::{Late, Need, Needs, Row};

/// What a replica knows of the conit of one need.
#[derive(Debug, Drop)]
pub struct Facts {
    /// How much of the replica's bound each replica holds, 0 for itself.
    pub outs: Row,
    /// The sum of the oweights of tentative writes.
    pub tentative: u64,
    /// The least replica whose cover has the least stamp.
    pub slowest: u32,
    /// The least peer whose cover is older than the need wants, if there is one.
    pub late: Option<Late>,
}

/// Whether a read is admitted. All but `Admit` name the first need, as listed, that isn't met.
#[derive(Clone, Copy, Debug, PartialEq, Eq)]
pub enum Verdict {
    /// Every need is met.
    Admit,
    /// More than `num` is lent out, `total`; `holder` is the least that has more than its part, `out`.
    WaitLent {
        conit: u32,
        holder: u32,
        out: u64,
        total: u64,
        num: u64,
    },
    /// Tentative writes weigh more than `order`; `replica` is the slowest.
    WaitOrder {
        conit: u32,
        replica: u32,
        tentative: u64,
        order: u64,
    },
    /// `replica` was last heard of at `moment`, which is before the `wanted` one.
    WaitStale {
        conit: u32,
        replica: u32,
        moment: u64,
        wanted: u64,
    },
}

/// The verdict on a read with these needs at this moment, of 2 to 8 replicas. `facts` has one for each need.
/// In each of them one of the outs is 0, and all are at most 10^12 together. Takes no memory.
pub fn admit(replicas: u32, needs: &Needs, facts: &[Facts], moment: u64) -> Verdict
    requires some { REPLICAS_MIN ≤ replicas }
    requires few { replicas ≤ REPLICAS_MAX }
    requires matched { length facts.now ≡ length needs.now }
    requires outs { All (λ f. AreOuts replicas f.outs) facts.now }
    ensures { result ≡ admission moment needs.now facts.now }
{
    for (i, need) in needs.items().iter().enumerate() {
        if let Some(verdict) = refusal(replicas, need, &facts[i], moment) {
            return verdict;
        }
    }
    Verdict::Admit
}

// What is told of one need, where it isn't met.
fn refusal(replicas: u32, need: &Need, facts: &Facts, moment: u64) -> Option<Verdict>
    requires some { REPLICAS_MIN ≤ replicas }
    requires few { replicas ≤ REPLICAS_MAX }
    requires outs { AreOuts replicas facts.now.outs }
    ensures { result ≡ refusal moment need.now facts.now }
{
    let outs = facts.outs.items();
    let total = outs.iter().sum();
    if total > need.num {
        let holder = first_over_part(replicas, outs, need.num);
        return Some(Verdict::WaitLent {
            conit: need.conit,
            holder: holder as u32,
            out: outs[holder],
            total,
            num: need.num,
        });
    }
    if facts.tentative > need.order {
        return Some(Verdict::WaitOrder {
            conit: need.conit,
            replica: facts.slowest,
            tentative: facts.tentative,
            order: need.order,
        });
    }
    facts.late.map(|late| Verdict::WaitStale {
        conit: need.conit,
        replica: late.replica,
        moment: late.moment,
        wanted: moment.saturating_sub(need.stale),
    })
}

// The least holder that has more than its part of `num`: of outs that pass it together, one does.
fn first_over_part(replicas: u32, outs: &[u64], num: u64) -> usize
    requires some { REPLICAS_MIN ≤ replicas }
    requires few { replicas ≤ REPLICAS_MAX }
    requires outs { AreOuts replicas outs.now }
    requires passed { num < sum outs.now }
    ensures holder { result ≡ first_over_part outs.now num }
    ensures within { result < length outs.now }
{
    let parts = u64::from(replicas - 1);
    for (holder, out) in outs.iter().enumerate() {
        if *out * parts > num {
            return holder;
        }
    }
    unreachable!()
}

#[cfg(test)]
mod tests {
    use super::*;
    use std::test::Fail;

    // A need on conit 2.
    fn need(num: u64, order: u64, stale: u64) -> Need {
        Need {
            conit: 2,
            num,
            order,
            stale,
        }
    }

    // The facts of replica 1 of three, of whose bound the others hold these parts.
    fn facts(first: u32, last: u32, tentative: u64, late: Option<Late>) -> Facts
        ensures { AreOuts 3 result.outs }
    {
        Facts {
            outs: Row::new(&[u64::from(first), 0, u64::from(last)]),
            tentative,
            slowest: 2,
            late,
        }
    }

    fn lent(holder: u32, out: u64, total: u64, num: u64) -> Verdict {
        Verdict::WaitLent {
            conit: 2,
            holder,
            out,
            total,
            num,
        }
    }

    #[test]
    fn admits_by_need(rt: HostRuntime) -> Result<(), Fail> {
        let late = Some(Late {
            replica: 0,
            moment: 100,
        });
        let unordered = Verdict::WaitOrder {
            conit: 2,
            replica: 2,
            tentative: 4,
            order: 3,
        };
        let stale = |wanted| Verdict::WaitStale {
            conit: 2,
            replica: 0,
            moment: 100,
            wanted,
        };
        for (first, last, tentative, late, need, verdict) in [
            (5, 5, 0, None, need(10, 0, 0), Verdict::Admit),
            (5, 5, 0, None, need(9, 0, 0), lent(0, 5, 10, 9)),
            (4, 6, 0, None, need(9, 0, 0), lent(2, 6, 10, 9)),
            (0, 1, 4, late, need(0, 0, 0), lent(2, 1, 1, 0)),
            (0, 0, 4, None, need(0, 4, 0), Verdict::Admit),
            (0, 0, 4, late, need(0, 3, 0), unordered),
            (0, 0, 0, late, need(0, 0, 9), stale(101)),
            (0, 0, 0, late, need(0, 0, 111), stale(0)),
        ] {
            let needs = Needs::new(&[need])?;
            assert_eq!(rt; needs.items().len(), 1);
            let facts = [facts(first, last, tentative, late)];
            assert_eq!(rt; admit(3, &needs, &facts, 110), verdict, "of {need:?}");
        }
        Ok(())
    }

    #[test]
    fn names_the_first_need(rt: HostRuntime) -> Result<(), Fail> {
        let on = |conit, order| Need {
            conit,
            num: 10,
            order,
            stale: 0,
        };
        let needs = Needs::new(&[on(0, 1), on(1, 0)])?;
        assert_eq!(rt; needs.items().len(), 2);
        let verdict = Verdict::WaitOrder {
            conit: 1,
            replica: 2,
            tentative: 7,
            order: 0,
        };
        let facts = [facts(5, 5, 1, None), facts(5, 5, 7, None)];
        assert_eq!(rt; admit(3, &needs, &facts, 0), verdict);
        let none = Needs::new(&[])?;
        assert_eq!(rt; none.items().len(), 0);
        assert_eq!(rt; admit(3, &none, &[], 0), Verdict::Admit);
        Ok(())
    }
}
