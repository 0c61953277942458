//! How many entries of each kind a record has.
ghost use Rattle.std.specs.Prelude.{◌≡◌};
ghost use Rattle.run_record.specs.RecordText.{is_call};
ghost use Rattle.run_check.specs.Verdicts.{count_of, summary_of, is_accepted, is_wait, is_send, is_take, is_lend, is_back, is_restart};

use crate::Summary;
use run_model::Reply;
use run_record::{Short, ShortAct};

/// How many entries of each kind there are. Takes no memory.
pub(crate) fn summary_of(entries: &[Short]) -> Summary
    ensures { result ≡ summary_of entries.now }
{
    Summary {
        entries: entries.len() as u64,
        calls: calls(entries),
        writes: writes(entries),
        waits: waits(entries),
        sends: sends(entries),
        takes: takes(entries),
        lends: lends(entries),
        backs: backs(entries),
        restarts: restarts(entries),
    }
}

fn calls(entries: &[Short]) -> u64
    ensures { result ≡ count_of is_call entries.now }
{
    entries.iter().filter(|short| is_call(&short.act)).count() as u64
}

fn writes(entries: &[Short]) -> u64
    ensures { result ≡ count_of is_accepted entries.now }
{
    entries
        .iter()
        .filter(|short| is_accepted(&short.act))
        .count() as u64
}

fn waits(entries: &[Short]) -> u64
    ensures { result ≡ count_of is_wait entries.now }
{
    entries.iter().filter(|short| is_wait(&short.act)).count() as u64
}

fn sends(entries: &[Short]) -> u64
    ensures { result ≡ count_of is_send entries.now }
{
    entries.iter().filter(|short| is_send(&short.act)).count() as u64
}

fn takes(entries: &[Short]) -> u64
    ensures { result ≡ count_of is_take entries.now }
{
    entries.iter().filter(|short| is_take(&short.act)).count() as u64
}

fn lends(entries: &[Short]) -> u64
    ensures { result ≡ count_of is_lend entries.now }
{
    entries.iter().filter(|short| is_lend(&short.act)).count() as u64
}

fn backs(entries: &[Short]) -> u64
    ensures { result ≡ count_of is_back entries.now }
{
    entries.iter().filter(|short| is_back(&short.act)).count() as u64
}

fn restarts(entries: &[Short]) -> u64
    ensures { result ≡ count_of is_restart entries.now }
{
    entries
        .iter()
        .filter(|short| is_restart(&short.act))
        .count() as u64
}

fn is_call(act: &ShortAct) -> bool
    ensures { result ≡ is_call act.now }
{
    matches!(act, ShortAct::Call { .. })
}

fn is_accepted(act: &ShortAct) -> bool
    ensures { result ≡ is_accepted act.now }
{
    match act {
        ShortAct::Call { reply, .. } => matches!(reply, Reply::Done { .. }),
        _ => false,
    }
}

fn is_wait(act: &ShortAct) -> bool
    ensures { result ≡ is_wait act.now }
{
    match act {
        ShortAct::Call { reply, .. } => reply.is_waiting(),
        _ => false,
    }
}

fn is_send(act: &ShortAct) -> bool
    ensures { result ≡ is_send act.now }
{
    matches!(act, ShortAct::Send { .. })
}

fn is_take(act: &ShortAct) -> bool
    ensures { result ≡ is_take act.now }
{
    matches!(act, ShortAct::Take { .. })
}

fn is_lend(act: &ShortAct) -> bool
    ensures { result ≡ is_lend act.now }
{
    matches!(act, ShortAct::Lend { .. })
}

fn is_back(act: &ShortAct) -> bool
    ensures { result ≡ is_back act.now }
{
    matches!(act, ShortAct::Back { .. })
}

fn is_restart(act: &ShortAct) -> bool
    ensures { result ≡ is_restart act.now }
{
    matches!(act, ShortAct::Restart)
}
