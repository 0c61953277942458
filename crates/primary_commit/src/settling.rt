//! What is newly committed is put into the image.
ghost use Rattle.std.specs.Prelude.{◌≡◌, ℕ, ◌+◌, ◌^◌, ◌<◌, ◌≤◌, [], OnOk, length, take};
ghost use Rattle.tact_base.specs.Images.{after_op};
ghost use Rattle.rollback_apply.specs.Image.{base_of};
ghost use Rattle.primary_commit.specs.Kept.{peer_with, IsSettled};
ghost use Rattle.primary_commit.specs.Peers.{PeerState, committed};

use crate::Pick;
use crate::logs::Logs;
use rollback_apply::Image;
use tact_base::{NoMemory, Op, RoomyList};

/// Makes room for `items` more items of each origin and `picks` more of the order, all of which may be committed then,
/// where `count` are. Nothing that they hold changes.
pub(crate) fn make_room(
    logs: &mut Logs,
    told: &mut RoomyList<Pick>,
    image: &mut Image,
    count: u64,
    items: u64,
    picks: u64,
) -> Result<(), NoMemory>
    requires within { count ≤ length told.old.items }
    requires few { picks < 2 ^ 32 }
    ensures logs { logs.new.logs ≡ logs.old.logs }
    ensures told { told.new.items ≡ told.old.items }
    ensures image { (peer : PeerState) (place : ℕ) → IsSettled peer place image.old → IsSettled peer place image.new }
    ensures logs_room { OnOk result (items ≤ logs.new.room) }
    ensures told_room { OnOk result (picks ≤ told.new.room) }
    ensures image_room { OnOk result (length told.old.items + picks ≤ count + image.new.room) }
{
    let open = told.items().len() as u64 - count;
    logs.reserve(items)?;
    told.reserve(picks)?;
    image.reserve(open + picks)?;
    Ok(())
}

/// Puts into the image, from the place `count` of the order on, the operations of the picks whose items are there, up
/// to the first that lacks its item. Answers that one's place. It costs what is put in. Takes no memory.
pub(crate) fn settle(image: &mut Image, logs: &Logs, told: &[Pick], count: u64) -> u64
    requires settled { IsSettled (peer_with logs.now.logs told.now) count image.old }
    requires room { length told.now ≤ count + image.old.room }
    ensures settled { IsSettled (peer_with logs.now.logs told.now) result image.new }
    ensures all { take result told.now ≡ committed (peer_with logs.now.logs told.now) }
{
    for place in count..told.len() as u64 {
        let Some(op) = logs.op(told[place as usize]) else {
            return place;
        };
        apply(image, place, op);
    }
    told.len() as u64
}

// Puts an operation behind the committed ones, and commits it.
fn apply(image: &mut Image, place: u64, op: Op)
    requires none { image.old.ops ≡ [] }
    requires place { image.old.committed ≡ place }
    requires count { place + 1 < 2 ^ 64 }
    requires room { 0 < image.old.room }
    ensures none { image.new.ops ≡ [] }
    ensures counted { image.new.committed ≡ place + 1 }
    ensures values { (key : ℕ) → base_of image.new key ≡ after_op (base_of image.old) op key }
    ensures room { image.old.room ≡ image.new.room + 1 }
{
    image.insert_at(place, op);
    image.commit(place + 1);
}
