//! A text that a script's lines are printed on.
ghost use Rattle.std.specs.Prelude.{◌≡◌, []};

use run_model::LineRoom;
use std::marker::Model;
use tact_base::Bytes;

/// A text, and the room in which the lines of entries that it grows by are put together. Contracts see the text.
#[derive(Drop)]
pub(crate) struct Page {
    pub(crate) text: Bytes,
    pub(crate) room: LineRoom,
}

impl Model for Page {
    ghost use Rattle.std.specs.Prelude.{ℕ, List};

    ghost Value = { List ℕ };

    ghost view = { λ page. page.text };
}

impl Page {
    /// The page that has this text.
    pub(crate) fn with(text: Bytes) -> Page
        ensures { result ≡ text }
    {
        Page {
            text,
            room: LineRoom::new(),
        }
    }

    /// Takes its text off.
    pub(crate) fn clear(&mut self)
        ensures { self.new ≡ [] }
    {
        self.text.truncate(0);
    }

    /// The bytes of its text.
    pub(crate) fn bytes(&self) -> &[u8]
        ensures { result.now ≡ self.now }
    {
        self.text.items()
    }

    /// Its text.
    pub(crate) fn into_text(self) -> Bytes
        ensures { result ≡ self }
    {
        let Page { text, room: _ } = self;
        text
    }
}
