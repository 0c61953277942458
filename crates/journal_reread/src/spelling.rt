//! That entries at hand can be spelled: their numbers have 64 bits. None of these functions changes anything.

ghost use Rattle.std.specs.Prelude.{All, FitsSigned};
ghost use Rattle.std.specs.Int.{w64};
ghost use Rattle.run_model.specs.CallBytes.{HasWideNumbers};
ghost use Rattle.restart_journal.specs.Pieces.{CanBePut, IsSpellable};
ghost use Rattle.journal_reread.specs.Rereading.{CanBeSpelled, entries_in, with_kept};

use run_model::{Act, Entry, Reply};

// Each of the stored entries, and the one in doubt.
pub(crate) fn are_due_spellable(stored: &[(u64, Entry)], doubt: &Option<Entry>)
    requires { All CanBePut (with_kept (entries_in stored.now) doubt.now) }
    ensures { All CanBeSpelled (with_kept (entries_in stored.now) doubt.now) }
{
    for pair in stored {
        is_spellable(&pair.1);
    }
    if let Some(entry) = doubt {
        is_spellable(entry);
    }
}

// Each of the entries that were found.
pub(crate) fn are_spellable(found: &[Entry])
    requires { All CanBePut found.now }
    ensures { All CanBeSpelled found.now }
{
    for entry in found {
        is_spellable(entry);
    }
}

// An entry that can be put can be spelled.
fn is_spellable(entry: &Entry)
    requires { CanBePut entry.now }
    ensures { IsSpellable entry.now.act }
{
    match &entry.act {
        Act::Call { number, reply, .. } => {
            let _number = *number;
            is_wide(reply);
        }
        Act::Send { .. } | Act::Take { .. } | Act::Lend { .. } | Act::Back { .. } | Act::Restart =>
            {}
    }
}

// The numbers of a reply have eight bytes each.
fn is_wide(reply: &Reply)
    ensures { HasWideNumbers reply.now }
{
    match reply {
        Reply::Done { index, stamp } => {
            let _numbers = (*index, *stamp);
        }
        Reply::Granted | Reply::Released => {}
        Reply::Value { value, sums } => {
            let _value = *value;
            are_wide(sums.items());
        }
        Reply::TooHeavy { weight, share, .. } => {
            let _numbers = (*weight, *share);
        }
        Reply::WaitHeld {
            reserved,
            weight,
            share,
            ..
        } => {
            let _numbers = (*reserved, *weight, *share);
        }
        Reply::WaitShare {
            missing,
            reserved,
            weight,
            share,
            ..
        } => {
            let _numbers = (*missing, *reserved, *weight, *share);
        }
        Reply::WaitLent {
            out,
            total,
            num,
            ..
        } => {
            let _numbers = (*out, *total, *num);
        }
        Reply::WaitOrder {
            tentative,
            order,
            ..
        } => {
            let _numbers = (*tentative, *order);
        }
        Reply::WaitStale { moment, wanted, .. } => {
            let _numbers = (*moment, *wanted);
        }
        Reply::NotHeld { held, amount, .. } => {
            let _numbers = (*held, *amount);
        }
    }
}

// So have sums.
fn are_wide(sums: &[i64])
    ensures { All (λ sum. FitsSigned w64 sum) sums.now }
{
    for sum in sums {
        let _sum = *sum;
    }
}
