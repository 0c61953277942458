use tact_base::{Blank, Cover};

/// What a message begins with.
#[derive(Clone, Copy, Debug)]
pub(crate) struct Head {
    /// The count of replicas.
    pub replicas: u32,
    /// The count of conits.
    pub conits: u32,
    /// The replica that sends it.
    pub from: u32,
    /// The replica that it is addressed to.
    pub to: u32,
    /// How many messages the sender sent before.
    pub number: u64,
}

/// What a message tells of one origin.
#[derive(Clone, Copy, Debug)]
pub(crate) struct Told {
    /// The origin.
    pub origin: u32,
    /// How many of its writes the sender has.
    pub have: u64,
    /// What the sender knows it to have been at.
    pub cover: Cover,
    /// The index of its first told write.
    pub first: u64,
    /// How many of its writes are told.
    pub count: u32,
}

impl Blank for Told {
    ghost blank = { record {
      origin = 0;
      have = 0;
      cover = record { count = 0; stamp = 0; moment = 0 };
      first = 0;
      count = 0;
    } };

    fn blank() -> Told {
        Told {
            origin: 0,
            have: 0,
            cover: Cover {
                count: 0,
                stamp: 0,
                moment: 0,
            },
            first: 0,
            count: 0,
        }
    }
}
