ghost use Rattle.std.specs.Prelude.{◌≡◌, ◌+◌, ◌<◌, ◌≤◌, [], ◌∷◌, ◌++◌, length, decimal};

use itoa::write_digits;
use std::marker::Model;

/// Room for a word of 16 bytes and four numbers of twenty digits, with a byte before each.
const SHORT_TEXT: usize = 101;

/// A text of at most 101 bytes, held in place, that is written from its end to its beginning: what is put comes before
/// what is there. Contracts see the bytes, and the room: how many more bytes can be put.
#[derive(Debug, Drop)]
pub struct ShortText {
    // The text is what stands from the start on.
    bytes: [u8; SHORT_TEXT],
    start: usize,
}

impl Model for ShortText {
    ghost use Rattle.std.specs.Prelude.{◌≡◌, ◌≤◌, ℕ, length, drop};
    ghost use Rattle.tact_base.specs.Roomy.{Roomy};

    ghost Value = { Roomy ℕ };

    ghost view = { λ text. record {
      items = drop text.start text.bytes;
      room = text.start;
    } };

    ghost invariant = { λ text. (text.start ≤ 101) × (length text.bytes ≡ 101) };
}

impl ShortText {
    /// The empty text.
    pub fn new() -> Self
        ensures items { result.items ≡ [] }
        ensures room { result.room ≡ 101 }
    {
        ShortText {
            bytes: [0; SHORT_TEXT],
            start: SHORT_TEXT,
        }
    }

    /// The bytes, in order.
    pub fn bytes(&self) -> &[u8]
        ensures { result.now ≡ self.now.items }
    {
        &self.bytes[self.start..]
    }

    /// Puts a byte.
    pub fn put(&mut self, byte: u8)
        requires { 0 < self.old.room }
        ensures items { self.new.items ≡ byte ∷ self.old.items }
        ensures room { self.old.room ≡ self.new.room + 1 }
    {
        self.start -= 1;
        self.bytes[self.start] = byte;
    }

    /// Puts the decimal text of a number, which has at most twenty digits.
    pub fn put_number(&mut self, value: u64)
        requires { 20 ≤ self.old.room }
        ensures items { self.new.items ≡ decimal value ++ self.old.items }
        ensures room { self.old.room ≤ self.new.room + 20 }
    {
        self.start = write_digits(value, &mut self.bytes, self.start);
    }

    /// Puts a byte and the decimal text of a number.
    pub fn put_marked(&mut self, mark: u8, value: u64)
        requires { 21 ≤ self.old.room }
        ensures items { self.new.items ≡ mark ∷ decimal value ++ self.old.items }
        ensures room { self.old.room ≤ self.new.room + 21 }
    {
        self.put_number(value);
        self.put(mark);
    }

    /// Puts a byte and a word.
    pub fn put_word(&mut self, mark: u8, word: &[u8])
        requires { length word.now < self.old.room }
        ensures items { self.new.items ≡ mark ∷ word.now ++ self.old.items }
        ensures room { self.old.room ≡ self.new.room + length word.now + 1 }
    {
        let start = self.start - word.len();
        self.bytes[start..self.start].copy_from_slice(word);
        self.start = start;
        self.put(mark);
    }
}
