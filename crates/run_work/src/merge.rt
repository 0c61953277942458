ghost use Rattle.std.specs.Prelude.{◌≡◌, ◌<◌, All, IfOk, length};
ghost use Rattle.std.specs.List.{flat_map};
ghost use Rattle.run_history.specs.Ticks.{IsMerge};
ghost use Rattle.run_work.specs.Placing.{all_placed};

use run_history::History;
use run_model::{Act, Entry};
use std::alloc::Global;
use std::mem::swap;
use tact_base::{NoMemory, RoomyList};

/// The entries of a history in order of their ticks, from the pairs of tick and entry of all replicas. They are moved
/// out of the pairs, in time and memory that grow with their number; the pairs are given up, whatever comes of it.
/// `NoMemory` is the only error.
pub fn in_order(
    alloc: Global,
    history: &History,
    parts: Vec<RoomyList<(u64, Entry)>>,
) -> Result<Vec<Entry>, NoMemory>
    requires { IsMerge (flat_map (λ part. part.items) parts.items) history.now }
    ensures { IfOk result (λ made. made.items ≡ history.now) }
{
    let mut made = stand_ins(alloc, history.entries())?;
    for part in parts {
        place_part(&mut made, part);
    }
    Ok(made)
}

// So many entries that stand where others will be placed.
fn stand_ins(alloc: Global, count: u64) -> Result<Vec<Entry>, NoMemory>
    ensures { IfOk result (λ made. length made.items ≡ count) }
{
    let mut made = Vec::with_capacity(alloc, count as usize)?;
    for _tick in 0..count {
        made.push(Entry {
            replica: 0,
            moment: 0,
            act: Act::Restart,
        })?;
    }
    Ok(made)
}

// Places all entries of a part at their ticks.
fn place_part(made: &mut Vec<Entry>, mut part: RoomyList<(u64, Entry)>)
    requires { All (λ pair. pair.0 < length made.old.items) part.items }
    ensures { made.new.items ≡ all_placed made.old.items part.items }
{
    place_all(made, part.items_mut());
}

// Places the entry of each pair at its tick, and leaves what stood there in the pair.
fn place_all(made: &mut Vec<Entry>, pairs: &mut [(u64, Entry)])
    requires { All (λ pair. pair.0 < length made.old.items) pairs.old }
    ensures { made.new.items ≡ all_placed made.old.items pairs.old }
{
    for pair in pairs.iter_mut() {
        swap(&mut made[pair.0 as usize], &mut pair.1);
    }
}
