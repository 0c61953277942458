//! Why a request is refused, as a reply.
ghost use Rattle.std.specs.Prelude.{◌≡◌, ◌<◌, All};
ghost use Rattle.run_model.specs.Replies.{first_some, refused_as};
ghost use Rattle.replica_core.specs.States.{IsKept};
ghost use Rattle.replica_core.specs.Calling.{refusal_of};

use super::Replica;
use run_model::Reply;
use split_budget::Fit;
use tact_base::Weight;

impl Replica {
    // What the first of these weights that a peer refuses is refused with.
    pub(super) fn weights_refusal(&self, weights: &[Weight]) -> Option<Reply>
        requires { All (λ weight. weight.conit < self.now.core.setup.conits) weights.now }
        ensures refusal { result ≡ first_some (refusal_of self.now.core.budgets) weights.now }
        ensures kept { IsKept self.now.core }
    {
        for weight in weights {
            let refusal = refused_as(weight.conit, self.budgets.test(*weight));
            if refusal.is_some() {
                return refusal;
            }
        }
        None
    }
}

// What budgets answer to an amount on a conit, as a reply where they refuse it.
pub(super) fn refused_as(conit: u32, fit: Fit) -> Option<Reply>
    ensures { result ≡ refused_as conit fit }
{
    match fit {
        Fit::Fits => None,
        Fit::TooHeavy {
            peer,
            weight,
            share,
        } => Some(Reply::TooHeavy {
            conit,
            peer,
            weight,
            share,
        }),
        Fit::WaitHeld {
            peer,
            reserved,
            weight,
            share,
        } => Some(Reply::WaitHeld {
            conit,
            peer,
            reserved,
            weight,
            share,
        }),
        Fit::WaitShare {
            peer,
            missing,
            reserved,
            weight,
            share,
        } => Some(Reply::WaitShare {
            conit,
            peer,
            missing,
            reserved,
            weight,
            share,
        }),
    }
}
