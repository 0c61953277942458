//! Fields in bytes: how each is appended, and how it is read from bytes and a place. A reader answers its value
//! and the place after it, or the fault; it takes no memory. Where an appender fails, the bytes still begin with
//! what they were.

ghost use Rattle.std.specs.Prelude.{◌≡◌, ◌≤◌, ◌<◌, ◌+◌, ◌^◌, ◌∷◌, ◌++◌, [], IfErr, IfOk, Err, Ok, OnOk, OnErr, length, take, drop, unsigned_abs};
ghost use Rattle.std.specs.Int.{w64, from_be_bytes};
ghost use Rattle.std.specs.List.{flat_map};
ghost use Rattle.run_model.specs.Text.{BeginsWith};
ghost use Rattle.run_model.specs.Bytes.{byte_at, other_at, number_at, numbers_at, signed_at, any_number_at, any_signed_at, number_bytes, signed_bytes};

use byteorder::{BigEndian, ByteOrder};
use tact_base::{Bytes, NoMemory};

/// Why bytes aren't the spelling of what was to be read: the first fault from the left.
#[derive(Clone, Copy, Debug, PartialEq, Eq)]
pub enum FieldFault {
    /// The bytes end before the field at hand does. All fields before it are good.
    Short,
    /// The field whose first byte is at this place is whole, and breaks its rule. All fields before it are good.
    BadField(usize),
}

/// Reads a number of one byte, at least `least` and below `bound`, at `place`: the number and the place after
/// it. `Short` where the bytes end before it, `BadField` where it is another number. Takes no memory.
#[tactic(auto, unfolding(crate::specs::Bytes::byte_at))]
pub fn byte_at(
    bytes: &[u8],
    place: usize,
    least: u32,
    bound: u32,
) -> Result<(u32, usize), FieldFault>
    requires { place ≤ length bytes.now }
    ensures within { IfOk result (λ read. (least ≤ read.0) × (read.0 < bound) × (read.1 ≤ length bytes.now)) }
    ensures exact { result ≡ byte_at least bound bytes.now place }
{
    let Some(byte) = bytes.get(place) else {
        return Err(FieldFault::Short);
    };
    let number = u32::from(*byte);
    if least <= number && number < bound {
        Ok((number, place + 1))
    } else {
        Err(FieldFault::BadField(place))
    }
}

/// Reads in one byte, at `place`, a replica of so many that isn't `other`: the replica and the place after it.
/// `Short` where the bytes end before it, `BadField` where it is none or is `other`. Takes no memory.
#[tactic(auto, unfolding(crate::specs::Bytes::other_at))]
pub fn other_at(
    other: u32,
    replicas: u32,
    bytes: &[u8],
    place: usize,
) -> Result<(u32, usize), FieldFault>
    requires { place ≤ length bytes.now }
    ensures within { IfOk result (λ read. read.1 ≤ length bytes.now) }
    ensures exact { result ≡ other_at other replicas bytes.now place }
{
    let Some(byte) = bytes.get(place) else {
        return Err(FieldFault::Short);
    };
    let replica = u32::from(*byte);
    if replica < replicas && replica != other {
        Ok((replica, place + 1))
    } else {
        Err(FieldFault::BadField(place))
    }
}

// The eight bytes from a place on, as a number.
fn eight_at(bytes: &[u8], place: usize) -> u64
    requires { place + 8 ≤ length bytes.now }
    ensures { result ≡ from_be_bytes w64 (take 8 (drop place bytes.now)) }
{
    let field = &bytes[place..place + 8];
    u64::from_be_bytes([
        field[0], field[1], field[2], field[3], field[4], field[5], field[6], field[7],
    ])
}

/// Reads a number of eight bytes, the highest first, at least `least` and below `bound`, at `place`: the number
/// and the place after it. `Short` where the bytes end before it does, `BadField` where it is another number.
/// Takes no memory.
#[tactic(auto, unfolding(crate::specs::Bytes::number_at))]
pub fn number_at(
    bytes: &[u8],
    place: usize,
    least: u64,
    bound: u64,
) -> Result<(u64, usize), FieldFault>
    requires { place ≤ length bytes.now }
    ensures within { IfOk result (λ read. (least ≤ read.0) × (read.0 < bound) × (read.1 ≤ length bytes.now)) }
    ensures exact { result ≡ number_at least bound bytes.now place }
{
    if bytes.len() - place < 8 {
        return Err(FieldFault::Short);
    }
    let number = eight_at(bytes, place);
    if least <= number && number < bound {
        Ok((number, place + 8))
    } else {
        Err(FieldFault::BadField(place))
    }
}

/// Reads a number of eight bytes, the highest first and below `bound`, for each of `items`, from `start` on, and
/// answers the place after the last. `Short` where the bytes end before one does, `BadField` where one isn't
/// below `bound`; of the items some may then be overwritten. Takes no memory.
pub fn numbers_at(
    items: &mut [u64],
    bound: u64,
    bytes: &[u8],
    start: usize,
) -> Result<usize, FieldFault>
    requires { start ≤ length bytes.now }
    ensures within { IfOk result (λ next. next ≤ length bytes.now) }
    ensures ok { IfOk result
        (λ next. numbers_at bound (length items.old) bytes.now start ≡ Ok (items.new, next)) }
    ensures err { IfErr result
        (λ fault. numbers_at bound (length items.old) bytes.now start ≡ Err fault) }
{
    let mut place = start;
    for item in items.iter_mut() {
        let (number, next) = number_at(bytes, place, 0, bound)?;
        place = next;
        *item = number;
    }
    Ok(place)
}

/// Reads a signed number of eight bytes in two's complement, of at most this size, at `place`: the number and
/// the place after it. `Short` where the bytes end before it does, `BadField` where its size is greater. Takes
/// no memory.
#[tactic(auto, unfolding(crate::specs::Bytes::signed_at))]
pub fn signed_at(bytes: &[u8], place: usize, size: u64) -> Result<(i64, usize), FieldFault>
    requires { place ≤ length bytes.now }
    ensures within { IfOk result (λ read. (unsigned_abs read.0 ≤ size) × (read.1 ≤ length bytes.now)) }
    ensures exact { result ≡ signed_at size bytes.now place }
{
    if bytes.len() - place < 8 {
        return Err(FieldFault::Short);
    }
    let number = eight_at(bytes, place).cast_signed();
    if number.unsigned_abs() <= size {
        Ok((number, place + 8))
    } else {
        Err(FieldFault::BadField(place))
    }
}

/// Reads a number of eight bytes at `place`, whichever it is: the number and the place after it. `Short` where
/// the bytes end before it does. Takes no memory.
#[tactic(auto, unfolding(crate::specs::Bytes::number_at))]
pub fn any_number_at(bytes: &[u8], place: usize) -> Result<(u64, usize), FieldFault>
    requires { place ≤ length bytes.now }
    ensures within { IfOk result (λ read. read.1 ≤ length bytes.now) }
    ensures exact { result ≡ any_number_at bytes.now place }
{
    if bytes.len() - place < 8 {
        return Err(FieldFault::Short);
    }
    Ok((eight_at(bytes, place), place + 8))
}

/// Reads a signed number of eight bytes in two's complement at `place`, whichever it is: the number and the
/// place after it. `Short` where the bytes end before it does. Takes no memory.
pub fn any_signed_at(bytes: &[u8], place: usize) -> Result<(i64, usize), FieldFault>
    requires { place ≤ length bytes.now }
    ensures within { IfOk result (λ read. read.1 ≤ length bytes.now) }
    ensures exact { result ≡ any_signed_at bytes.now place }
{
    signed_at(bytes, place, i64::MIN.unsigned_abs())
}

/// Appends a number in one byte. After `NoMemory` the bytes begin with what they were.
pub fn append_byte(number: u32, out: &mut Bytes) -> Result<(), NoMemory>
    requires { number < 256 }
    ensures ok { OnOk result (out.new ≡ out.old ++ number ∷ []) }
    ensures err { OnErr result (BeginsWith out.old out.new) }
{
    out.push(number as u8)
}

/// Appends a number in eight bytes, the highest first. After `NoMemory` the bytes begin with what they were.
#[tactic(auto, unfolding(crate::specs::Bytes::number_bytes))]
pub fn append_number(number: u64, out: &mut Bytes) -> Result<(), NoMemory>
    ensures ok { OnOk result (out.new ≡ out.old ++ number_bytes number) }
    ensures err { OnErr result (BeginsWith out.old out.new) }
{
    let mut field = [0; 8];
    BigEndian::write_u64(&mut field, number);
    out.append(&field)
}

/// Appends numbers in eight bytes each, the highest first. After `NoMemory` the bytes begin with what they
/// were.
#[tactic(auto, using(crate::proofs::TextLemmas::begins_grown, crate::proofs::TextLemmas::always_err))]
pub fn append_numbers(numbers: &[u64], out: &mut Bytes) -> Result<(), NoMemory>
    ensures ok { OnOk result (out.new ≡ out.old ++ flat_map number_bytes numbers.now) }
    ensures err { OnErr result (BeginsWith out.old out.new) }
{
    for number in numbers {
        append_number(*number, out)?;
    }
    Ok(())
}
