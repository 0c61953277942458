//! Links that lose, repeat and reorder: the fate of each item, and what comes out.

ghost use Rattle.std.specs.Prelude.{◌≡◌, ℕ, ⊤};

use link_faults::{
    Counts, Fate, INBOX_MAX, Inbox, LinkPlan, Twin, counts_add_up, first_in_first_out,
};
use std::alloc::Global;
use std::process::Abort;
use tact_base::NoMemory;

#[derive(Debug, Drop)]
struct Parcel {
    number: u64,
}

impl Twin for Parcel {
    // Whether there is memory for a twin.
    type With = bool;

    ghost Carried = { ℕ };

    ghost carries = { λ parcel. parcel.number };

    ghost fits = { λ _ _. ⊤ };

    fn twin(&mut self, with: &bool) -> Result<Parcel, NoMemory> {
        if *with {
            Ok(parcel_of(self.number))
        } else {
            Err(NoMemory)
        }
    }
}

fn parcel_of(number: u64) -> Parcel
    ensures { result.number ≡ number }
{
    Parcel { number }
}

fn plan([lose, double, turn]: [u64; 3]) -> LinkPlan {
    LinkPlan { lose, double, turn }
}

fn counts([puts, copies, taken, lost, waiting]: [u64; 5]) -> Counts {
    Counts {
        puts,
        copies,
        taken,
        lost,
        waiting,
    }
}

// An inbox of this plan, into which the items 1 up to `last` were put.
fn filled(rt: &impl Abort, alloc: Global, plan: LinkPlan, last: u64) -> Inbox<Parcel> {
    let mut inbox = Inbox::new(alloc, plan).expect(rt, "an inbox");
    for number in 0..last {
        inbox.put(&true, parcel_of(number + 1)).expect(rt, "a put");
    }
    inbox
}

// The numbers of the items that come out, up to the first time that none does.
fn taken(rt: &impl Abort, alloc: Global, inbox: &mut Inbox<Parcel>) -> Vec<u64> {
    let mut numbers = Vec::new(alloc);
    for _ in 0..INBOX_MAX {
        let Some(parcel) = inbox.next() else {
            break;
        };
        numbers.push(parcel.number).expect(rt, "room for a number");
    }
    numbers
}

// What an inbox of this plan counts is this.
fn assert_counts(rt: &impl Abort, inbox: &Inbox<Parcel>, plan: LinkPlan, due: Counts) {
    assert_eq!(rt; inbox.counts(), due, "{plan:?}");
}

// The items of these numbers come out of an inbox of this plan, and then none.
fn assert_taken(
    rt: &(impl Abort + AllocGlobal),
    inbox: &mut Inbox<Parcel>,
    plan: LinkPlan,
    order: &[u64],
) {
    let numbers = taken(rt, rt.alloc(), inbox);
    assert_eq!(rt; numbers.as_slice(), order, "{plan:?}");
}

// The fate of an item that is put into an inbox, with memory for a twin or without.
fn assert_put(rt: &impl Abort, inbox: &mut Inbox<Parcel>, with: bool, item: Parcel, fate: Fate) {
    let number = item.number;
    let put = inbox.put(&with, item).expect(rt, "a put");
    assert_eq!(rt; put, fate, "put {number}");
}

// What comes out of an inbox of this plan into which so many items were put as are counted, and what is counted before,
// after the items, and once more.
fn assert_plan(rt: &(impl Abort + AllocGlobal), plan: LinkPlan, total: Counts, order: &[u64]) {
    let mut inbox = filled(rt, rt.alloc(), plan, total.puts);
    assert_counts(rt, &inbox, plan, total);
    assert_taken(rt, &mut inbox, plan, order);
    let after = Counts {
        taken: total.waiting,
        waiting: 0,
        ..total
    };
    assert_counts(rt, &inbox, plan, after);
    assert_taken(rt, &mut inbox, plan, &[]);
    assert_counts(rt, &inbox, plan, after);
}

static PLANS: [([u64; 3], [u64; 5], &[u64]); 8] = [
    ([5, 7, 0], [7, 1, 0, 1, 7], &[1, 2, 3, 4, 6, 7, 7]),
    ([0, 0, 2], [4, 0, 0, 0, 4], &[4, 2, 1, 3]),
    ([0, 0, 0], [4, 0, 0, 0, 4], &[1, 2, 3, 4]),
    ([1, 0, 0], [3, 0, 0, 3, 0], &[]),
    ([0, 1, 0], [3, 3, 0, 0, 6], &[1, 1, 2, 2, 3, 3]),
    ([0, 3, 3], [3, 1, 0, 0, 4], &[3, 3, 1, 2]),
    ([0, 0, 1], [3, 0, 0, 0, 3], &[3, 2, 1]),
    ([2, 2, 2], [4, 0, 0, 2, 2], &[1, 3]),
];

#[test]
fn loses_doubles_and_turns(rt: HostRuntime) {
    for &(periods, total, order) in &PLANS {
        assert_plan(&rt, plan(periods), counts(total), order);
    }
}

static FATES: [Fate; 7] = [
    Fate::Queued,
    Fate::Queued,
    Fate::Queued,
    Fate::Queued,
    Fate::Lost,
    Fate::Queued,
    Fate::Doubled,
];

#[test]
fn answers_each_fate(rt: HostRuntime) {
    let mut inbox = Inbox::new(rt.alloc(), plan([5, 7, 0])).expect(&rt, "an inbox");
    for (before, fate) in FATES.iter().enumerate() {
        assert_put(&rt, &mut inbox, true, parcel_of(before as u64 + 1), *fate);
    }
}

// The fate of the put that comes after so many, and how many items wait then.
fn next_put(rt: &impl Abort, alloc: Global, plan: LinkPlan, before: u64) -> (Fate, u64) {
    let mut inbox = filled(rt, alloc, plan, before);
    let item = parcel_of(before.saturating_add(1));
    let fate = inbox.put(&true, item).expect(rt, "a put");
    (fate, inbox.counts().waiting)
}

static FULL: [([u64; 3], u64, Fate, u64); 8] = [
    ([0, 0, 0], 1_023, Fate::Queued, 1_024),
    ([0, 0, 0], 1_024, Fate::LostFull, 1_024),
    ([0, 1_024, 0], 1_023, Fate::Queued, 1_024),
    ([0, 1_023, 0], 1_022, Fate::Doubled, 1_024),
    ([0, 1_025, 0], 1_024, Fate::LostFull, 1_024),
    ([1_025, 0, 0], 1_024, Fate::Lost, 1_024),
    ([1_023, 1_023, 0], 1_022, Fate::Lost, 1_022),
    ([1_025, 1_025, 1_025], 1_024, Fate::Lost, 1_024),
];

#[test]
fn holds_no_more_than_1024(rt: HostRuntime) {
    for &(periods, before, fate, waiting) in &FULL {
        let next = next_put(&rt, rt.alloc(), plan(periods), before);
        assert_eq!(rt; next, (fate, waiting), "{periods:?} after {before}");
    }
}

// The item that is handed back where it can't be doubled.
fn handed_back(rt: &impl Abort, inbox: &mut Inbox<Parcel>, item: Parcel) -> Parcel {
    inbox.put(&false, item).err().expect(rt, "a fault").item
}

#[test]
fn hands_back_what_cannot_be_doubled(rt: HostRuntime) {
    let plan = plan([3, 2, 0]);
    let mut inbox = Inbox::new(rt.alloc(), plan).expect(&rt, "an inbox");
    assert_put(&rt, &mut inbox, false, parcel_of(1), Fate::Queued);
    let item = handed_back(&rt, &mut inbox, parcel_of(2));
    assert_eq!(rt; item.number, 2);
    assert_counts(&rt, &inbox, plan, counts([1, 0, 0, 0, 1]));
    assert_put(&rt, &mut inbox, true, item, Fate::Doubled);
    assert_put(&rt, &mut inbox, false, parcel_of(3), Fate::Lost);
    assert_counts(&rt, &inbox, plan, counts([3, 1, 0, 1, 3]));
    assert_taken(&rt, &mut inbox, plan, &[1, 2, 2]);
}

#[test]
fn laws_hold_of_parcels() {
    counts_add_up::<Parcel>();
    first_in_first_out::<Parcel>();
}
