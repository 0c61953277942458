//! A postbox for each of four replicas.
ghost use Rattle.std.specs.Prelude.{◌≡◌, ◌<◌};

use link_faults::{Counts, LinkPlan};
use postbox::{Key, Postbox};
use run_history::{Desk, Note};
use std::alloc::Global;
use std::marker::Model;
use std::process::Abort;
use std::sync::Wait;

/// A postbox for each of the replicas 0 to 3 of a desk.
pub struct Boxes {
    first: Postbox,
    second: Postbox,
    third: Postbox,
    fourth: Postbox,
}

impl Model for Boxes {
    ghost use Rattle.std.specs.Prelude.{◌≡◌};
    ghost use Rattle.lock_tests.specs.Boxes.{BoxesView};

    ghost Value = { BoxesView };

    ghost view = { λ b. record {
      desk = b.first.desk;
      cells = record { first = b.first.cell; second = b.second.cell; third = b.third.cell; fourth = b.fourth.cell };
    } };

    ghost invariant = { λ b. (b.first.to ≡ 0)
        × ((b.second.desk ≡ b.first.desk) × (b.second.to ≡ 1))
        × ((b.third.desk ≡ b.first.desk) × (b.third.to ≡ 2))
        × ((b.fourth.desk ≡ b.first.desk) × (b.fourth.to ≡ 3)) };
}

/// The keys of four postboxes.
#[derive(Drop)]
pub struct Keys {
    first: Key,
    second: Key,
    third: Key,
    fourth: Key,
}

impl Model for Keys {
    ghost use Rattle.lock_tests.specs.Boxes.{BoxCells};

    ghost Value = { BoxCells };

    ghost view = { λ k. record { first = k.first; second = k.second; third = k.third; fourth = k.fourth } };
}

impl Boxes {
    /// Empty ones, for the desk of a note, and the keys that end them.
    pub fn new(
        rt: &impl Abort,
        alloc: Global,
        desk: &Desk,
        plan: LinkPlan,
        mut note: Note,
    ) -> (Boxes, Keys)
        requires { note.table ≡ desk.now.table }
        ensures desk { result.0.desk ≡ desk.now.table }
        ensures keys { result.1 ≡ result.0.cells }
    {
        let (first, first_key) = Postbox::new(alloc, plan, note.twin(desk), 0).expect(
            rt,
            "a postbox",
        );
        let (second, second_key) = Postbox::new(alloc, plan, note.twin(desk), 1).expect(
            rt,
            "a postbox",
        );
        let (third, third_key) = Postbox::new(alloc, plan, note.twin(desk), 2).expect(
            rt,
            "a postbox",
        );
        let (fourth, fourth_key) = Postbox::new(alloc, plan, note, 3).expect(rt, "a postbox");
        let boxes = Boxes {
            first,
            second,
            third,
            fourth,
        };
        let keys = Keys {
            first: first_key,
            second: second_key,
            third: third_key,
            fourth: fourth_key,
        };
        (boxes, keys)
    }

    /// The postbox of a replica.
    pub fn of(&self, replica: u32) -> &Postbox
        requires { replica < 4 }
        ensures desk { result.now.desk ≡ self.now.desk }
        ensures to { result.now.to ≡ replica }
    {
        match replica {
            0 => &self.first,
            1 => &self.second,
            2 => &self.third,
            _ => &self.fourth,
        }
    }

    /// Ends them with their keys, and gives the counts of each.
    pub fn end<R: Wait>(self, rt: &R, keys: Keys) -> [Counts; 4]
        requires { keys ≡ self.cells }
    {
        let Boxes {
            first,
            second,
            third,
            fourth,
        } = self;
        [
            first.end(rt, keys.first).counts(),
            second.end(rt, keys.second).counts(),
            third.end(rt, keys.third).counts(),
            fourth.end(rt, keys.fourth).counts(),
        ]
    }
}
