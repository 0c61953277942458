//! Pieces of a line, written from its end to its beginning: what is put stands before what is there. Each call is told
//! where the line begins, and returns where it begins then.

ghost use Rattle.std.specs.Prelude.{◌≡◌, ◌≤◌, ◌+◌, ◌*◌, [], ◌∷◌, ◌++◌, length, map, drop, decimal};
ghost use Rattle.std.specs.Fmt.{signed_decimal};
ghost use Rattle.run_model.specs.Text.{spaced};

use itoa::write_digits;

/// Room for the longest line, which has four needs and is answered by six numbers, each counted with twenty digits.
pub(crate) const LINE_ROOM: usize = 600;

/// The bytes that a line is written into. It ends where they end.
pub(crate) type Room = [u8; LINE_ROOM];

/// Puts bytes.
#[inline(always)]
pub(crate) fn put(piece: &[u8], room: &mut Room, start: usize) -> usize
    requires fits { length piece.now ≤ start }
    requires within { start ≤ 600 }
    ensures start { result + length piece.now ≡ start }
    ensures text { drop result room.new ≡ piece.now ++ drop start room.old }
{
    let begin = start - piece.len();
    room[begin..start].copy_from_slice(piece);
    begin
}

/// Puts a byte and the decimal text of a number, which has at most twenty digits.
pub(crate) fn put_number(mark: u8, value: u64, room: &mut Room, start: usize) -> usize
    requires fits { 21 ≤ start }
    requires within { start ≤ 600 }
    ensures start { (result ≤ start) × (start ≤ result + 21) }
    ensures text { drop result room.new ≡ mark ∷ decimal value ++ drop start room.old }
{
    let begin = put_digits(value, room, start) - 1;
    room[begin] = mark;
    begin
}

/// Puts a byte and the decimal text of a number, with `-` before a negative one.
pub(crate) fn put_signed(mark: u8, value: i64, room: &mut Room, start: usize) -> usize
    requires fits { 22 ≤ start }
    requires within { start ≤ 600 }
    ensures start { (result ≤ start) × (start ≤ result + 22) }
    ensures text { drop result room.new ≡ mark ∷ signed_decimal value ++ drop start room.old }
{
    let mut begin = put_digits(value.unsigned_abs(), room, start);
    if value < 0 {
        begin -= 1;
        room[begin] = b'-';
    }
    begin -= 1;
    room[begin] = mark;
    begin
}

// Puts the decimal text of a number. Most numbers have one digit.
#[inline(always)]
fn put_digits(value: u64, room: &mut Room, start: usize) -> usize
    requires fits { 20 ≤ start }
    requires within { start ≤ 600 }
    ensures start { (result ≤ start) × (start ≤ result + 20) }
    ensures text { drop result room.new ≡ decimal value ++ drop start room.old }
{
    if value < 10 {
        room[start - 1] = b'0' + value as u8;
        return start - 1;
    }
    write_digits(value, room, start)
}

/// Puts two numbers, with a space before each.
pub(crate) fn put_pair(first: u64, second: u64, room: &mut Room, start: usize) -> usize
    requires fits { 42 ≤ start }
    requires within { start ≤ 600 }
    ensures start { (result ≤ start) × (start ≤ result + 42) }
    ensures text { drop result room.new ≡ spaced (map decimal (first ∷ second ∷ [])) ++ drop start room.old }
{
    let start = put_number(b' ', second, room, start);
    put_number(b' ', first, room, start)
}

/// Puts numbers, with a space before each.
pub(crate) fn put_numbers(numbers: &[u64], room: &mut Room, start: usize) -> usize
    requires fits { 21 * length numbers.now ≤ start }
    requires within { start ≤ 600 }
    ensures start { (result ≤ start) × (start ≤ result + 21 * length numbers.now) }
    ensures text { drop result room.new ≡ spaced (map decimal numbers.now) ++ drop start room.old }
{
    let mut begin = start;
    let mut left = numbers.len();
    while left > 0 {
        left -= 1;
        begin = put_number(b' ', numbers[left], room, begin);
    }
    begin
}

/// Puts numbers with their signs, with a space before each.
pub(crate) fn put_sums(sums: &[i64], room: &mut Room, start: usize) -> usize
    requires fits { 22 * length sums.now ≤ start }
    requires within { start ≤ 600 }
    ensures start { (result ≤ start) × (start ≤ result + 22 * length sums.now) }
    ensures text { drop result room.new ≡ spaced (map signed_decimal sums.now) ++ drop start room.old }
{
    let mut begin = start;
    let mut left = sums.len();
    while left > 0 {
        left -= 1;
        begin = put_signed(b' ', sums[left], room, begin);
    }
    begin
}
