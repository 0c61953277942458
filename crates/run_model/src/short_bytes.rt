ghost use Rattle.std.specs.Prelude.{◌≡◌, ◌+◌, ◌*◌, ◌<◌, ◌≤◌, [], ◌∷◌, ◌++◌, length};
ghost use Rattle.std.specs.List.{flat_map};
ghost use Rattle.run_model.specs.Bytes.{number_bytes, signed_bytes};

use byteorder::{BigEndian, ByteOrder};
use std::marker::Model;

/// Room for all that is put together at once: the longest is a call of a journal, of 171 bytes.
const SHORT_BYTES: usize = 256;

/// At most 256 bytes, held in place, that are written from their beginning on: what is put comes behind what is there.
/// Contracts see the bytes, and the room: how many more bytes can be put. No call takes memory.
#[derive(Debug, Drop)]
pub struct ShortBytes {
    // The first `len` of them are written.
    bytes: [u8; SHORT_BYTES],
    len: usize,
}

impl Model for ShortBytes {
    ghost use Rattle.std.specs.Prelude.{◌≡◌, ◌≤◌, ◌-◌, ℕ, length, take};
    ghost use Rattle.tact_base.specs.Roomy.{Roomy};

    ghost Value = { Roomy ℕ };

    ghost view = { λ short. record {
      items = take short.len short.bytes;
      room = 256 - short.len;
    } };

    ghost invariant = { λ short. (short.len ≤ 256) × (length short.bytes ≡ 256) };
}

impl ShortBytes {
    /// No bytes.
    pub fn new() -> Self
        ensures items { result.items ≡ [] }
        ensures room { result.room ≡ 256 }
    {
        ShortBytes {
            bytes: [0; SHORT_BYTES],
            len: 0,
        }
    }

    /// The bytes, in order.
    pub fn bytes(&self) -> &[u8]
        ensures items { result.now ≡ self.now.items }
        ensures room { length self.now.items + self.now.room ≡ 256 }
    {
        &self.bytes[..self.len]
    }

    /// Puts a number in one byte.
    pub fn put_byte(&mut self, number: u32)
        requires small { number < 256 }
        requires room { 1 ≤ self.old.room }
        ensures items { self.new.items ≡ self.old.items ++ number ∷ [] }
        ensures room { self.old.room ≡ self.new.room + 1 }
    {
        self.bytes[self.len] = number as u8;
        self.len += 1;
    }

    /// Puts a number in eight bytes, the highest first.
    #[tactic(auto, unfolding(crate::specs::Bytes::number_bytes))]
    pub fn put_number(&mut self, number: u64)
        requires { 8 ≤ self.old.room }
        ensures items { self.new.items ≡ self.old.items ++ number_bytes number }
        ensures room { self.old.room ≡ self.new.room + 8 }
    {
        BigEndian::write_u64(&mut self.bytes[self.len..], number);
        self.len += 8;
    }

    /// Puts numbers in eight bytes each, the highest first.
    pub fn put_numbers(&mut self, numbers: &[u64])
        requires { 8 * length numbers.now ≤ self.old.room }
        ensures items { self.new.items ≡ self.old.items ++ flat_map number_bytes numbers.now }
        ensures room { self.old.room ≡ self.new.room + 8 * length numbers.now }
    {
        for number in numbers {
            self.put_number(*number);
        }
    }

    /// Puts a signed number in eight bytes, as two's complement.
    #[tactic(auto, unfolding(crate::specs::Bytes::signed_bytes))]
    pub fn put_signed(&mut self, number: i64)
        requires { 8 ≤ self.old.room }
        ensures items { self.new.items ≡ self.old.items ++ signed_bytes number }
        ensures room { self.old.room ≡ self.new.room + 8 }
    {
        self.put_number(number.cast_unsigned());
    }
}
