ghost use Rattle.std.specs.Prelude.{◌≡◌, ◌<◌, ◌≤◌, ◌+◌, ℕ, IfOk, map, vec_len, slice_index_or};
ghost use Rattle.run_history.specs.Seats.{fresh_clerks};
ghost use Rattle.thread_tests.specs.Restarts.{HasRestarts, AreInPlace};

use run_history::{Clerk, Desk};
use run_model::{Act, Config, Entry};
use std::alloc::{AllocError, Global};
use std::process::Abort;
use std::test::Fail;
use std::thread;
use std::thread::Threads;

const DRAWS: usize = 100;

// A desk for so many replicas, and its clerks.
fn opened(alloc: Global, replicas: u32) -> Result<(Desk, Vec<Clerk>), Fail>
    requires low { 2 ≤ replicas }
    requires high { replicas ≤ 8 }
    ensures replicas { IfOk result (λ made. made.0.setup.replicas ≡ replicas) }
    ensures clerks { IfOk result (λ made. made.1.items ≡ fresh_clerks made.0) }
{
    let alphas = [0; 8];
    let loans = [0; 64];
    let count = replicas as usize;
    let config = Config::new(
        alloc,
        replicas,
        1,
        &alphas[..count],
        &loans[..count * count],
    )?;
    Ok(Desk::new(alloc, &config)?)
}

// Draws the next restart of a clerk that drew so many.
fn draw_next(desk: &Desk, clerk: &mut Clerk, count: u64) -> u64
    requires drawn { HasRestarts desk.now count clerk.old }
    requires room { count < 1000 }
    ensures drawn { HasRestarts desk.now (count + 1) clerk.new }
    ensures replica { clerk.new.replica ≡ clerk.old.replica }
{
    let entry = Entry {
        replica: clerk.replica(),
        moment: count,
        act: Act::Restart,
    };
    clerk.draw(desk, &entry)
}

// A clerk, and the ticks that it drew.
#[derive(Drop)]
struct Drawn {
    clerk: Clerk,
    ticks: [u64; DRAWS],
}

// Draws as many restarts as there are ticks.
fn draw_many(desk: &Desk, mut clerk: Clerk) -> Drawn
    requires { HasRestarts desk.now 0 clerk }
    ensures table { result.clerk.table ≡ desk.now.table }
    ensures replica { result.clerk.replica ≡ clerk.replica }
{
    let mut ticks = [0; DRAWS];
    for count in 0..DRAWS {
        ticks[count] = draw_next(desk, &mut clerk, count as u64);
    }
    Drawn { clerk, ticks }
}

// Each clerk draws in a thread of its own.
fn draw_each<R: Threads + Sync>(
    rt: &R,
    desk: &Desk,
    clerks: Vec<Clerk>,
) -> Result<Vec<Drawn>, AllocError>
    requires { (i : ℕ) (d : _) → i < vec_len clerks
        → HasRestarts desk.now 0 (slice_index_or clerks.items i d) }
    ensures len { IfOk result (λ drawn. vec_len drawn ≡ vec_len clerks) }
    ensures tables { IfOk result (λ drawn. (i : ℕ) (d : _) → i < vec_len clerks
        → (slice_index_or drawn.items i d).clerk.table ≡ desk.now.table) }
    ensures replicas { IfOk result (λ drawn. (i : ℕ) (d : _) (e : _) → i < vec_len clerks
        → (slice_index_or drawn.items i d).clerk.replica ≡ (slice_index_or clerks.items i e).replica) }
{
    thread::map_vec(rt, clerks, &|clerk| draw_many(desk, clerk))
}

// The same with the clerks of a desk that just opened, which then are in their places.
fn draw_all<R: Threads + Sync>(
    rt: &R,
    desk: &Desk,
    clerks: Vec<Clerk>,
) -> Result<Vec<Drawn>, AllocError>
    requires { clerks.items ≡ fresh_clerks desk.now }
    ensures { IfOk result (λ drawn. AreInPlace desk.now (map (λ one. one.clerk) drawn.items)) }
{
    let drawn = draw_each(rt, desk, clerks)?;
    Ok(drawn)
}

// Closes a desk with the clerks, and gives what it counted and what they drew.
fn closed(
    alloc: Global,
    desk: Desk,
    drawn: Vec<Drawn>,
) -> Result<(u64, Vec<[u64; DRAWS]>), AllocError>
    requires { AreInPlace desk (map (λ one. one.clerk) drawn.items) }
{
    let mut clerks = Vec::new(alloc);
    let mut all = Vec::new(alloc);
    for Drawn { clerk, ticks } in drawn {
        clerks.push(clerk)?;
        all.push(ticks)?;
    }
    Ok((desk.close(clerks).entries(), all))
}

// Each tick below the count is that of one entry, and of each replica the moments rise from tick to
// tick, which makes a run of restarts.
fn is_run_of_restarts(rt: &impl Abort, all: &[[u64; DRAWS]]) {
    let mut drawn_at = [None; 800];
    for (replica, ticks) in all.iter().enumerate() {
        for (moment, &tick) in ticks.iter().enumerate() {
            let tick = tick as usize;
            assert!(rt;
                tick < 800 && drawn_at[tick].is_none(),
                "one entry at {tick}"
            );
            drawn_at[tick] = Some((replica, moment));
        }
    }
    let mut next = [0; 8];
    for (tick, drawn) in drawn_at.iter().enumerate() {
        let &Some((replica, moment)) = drawn else {
            panic!(rt; "no entry at {tick}")
        };
        assert!(rt;
            replica < 8 && moment < DRAWS && next[replica] == moment,
            "{replica} at {tick}"
        );
        next[replica] = moment + 1;
    }
}

#[test]
fn eight_clerks_at_once(rt: HostRuntime) -> Result<(), Fail> {
    let (desk, clerks) = opened(rt.alloc(), 8)?;
    let drawn = draw_all(&rt, &desk, clerks)?;
    let (entries, all) = closed(rt.alloc(), desk, drawn)?;
    assert_eq!(rt; (entries, all.len()), (800, 8));
    is_run_of_restarts(&rt, all.as_slice());
    Ok(())
}

// A desk for two replicas, and their clerks.
fn two(alloc: Global) -> Result<(Desk, Clerk, Clerk), Fail>
    ensures first { IfOk result (λ made. HasRestarts made.0 0 made.1 × (made.1.replica ≡ 0)) }
    ensures second { IfOk result (λ made. HasRestarts made.0 0 made.2 × (made.2.replica ≡ 1)) }
    ensures replicas { IfOk result (λ made. made.0.setup.replicas ≡ 2) }
{
    let (desk, mut clerks) = opened(alloc, 2)?;
    let second = clerks.pop().ok_or("a second clerk")?;
    let first = clerks.pop().ok_or("a first clerk")?;
    Ok((desk, first, second))
}

// Closes a desk for two replicas, and gives what it counted.
fn close_two(alloc: Global, desk: Desk, first: Clerk, second: Clerk) -> Result<u64, Fail>
    requires replicas { desk.setup.replicas ≡ 2 }
    requires first { (first.table ≡ desk.table) × (first.replica ≡ 0) }
    requires second { (second.table ≡ desk.table) × (second.replica ≡ 1) }
{
    let mut clerks = Vec::new(alloc);
    clerks.push(first)?;
    clerks.push(second)?;
    Ok(desk.close(clerks).entries())
}

#[test]
fn two_clerks_in_turns(rt: HostRuntime) -> Result<(), Fail> {
    let (desk, mut first, mut second) = two(rt.alloc())?;
    let mut early = first.note(&desk);
    assert_eq!(rt; draw_next(&desk, &mut first, 0), 0);
    assert_eq!(rt; draw_next(&desk, &mut second, 0), 1);
    let mut note = second.note(&desk);
    let mut twin = note.twin(&desk);
    assert_eq!(rt; twin.look(&desk), 2);
    first.learn(&desk, note);
    assert_eq!(rt; draw_next(&desk, &mut first, 1), 2);
    early.meet(&desk, twin);
    assert_eq!(rt; early.look(&desk), 3);
    second.learn(&desk, early);
    assert_eq!(rt; draw_next(&desk, &mut second, 1), 3);
    assert_eq!(rt; (first.replica(), second.replica()), (0, 1));
    assert_eq!(rt; close_two(rt.alloc(), desk, first, second)?, 4);
    Ok(())
}
