//! Tokens, appended to a text with a space before each. Where one of these calls fails, the text still
//! begins with what it was.

ghost use Rattle.std.specs.Prelude.{◌≡◌, ◌<◌, ◌+◌, ◌*◌, ◌≤◌, ◌++◌, ◌∷◌, [], codes, length, map, take, decimal, OnOk, OnErr};
ghost use Rattle.std.specs.Fmt.{signed_decimal};
ghost use Rattle.run_model.specs.Text.{spaced, BeginsWith};

use tact_base::{Bytes, NoMemory, ShortText};

/// Hands on how appending to `out` ended, and takes back what was appended since `start` if it failed.
pub fn all_or_nothing(
    done: Result<(), NoMemory>,
    start: usize,
    out: &mut Bytes,
) -> Result<(), NoMemory>
    ensures same { result ≡ done }
    ensures ok { OnOk done (out.new ≡ out.old) }
    ensures err { OnErr done (out.new ≡ take start out.old) }
{
    if done.is_err() {
        out.truncate(start);
    }
    done
}

// What a row has at most to be put together before it is appended.
const ROW_NUMBERS: usize = 4;

const ROW_WORD: usize = 16;

/// Appends a word and numbers, with a space before each.
pub fn put_row(word: &[u8], numbers: &[u64], out: &mut Bytes) -> Result<(), NoMemory>
    ensures ok { OnOk result (out.new ≡ out.old ++ spaced (word.now ∷ map decimal numbers.now)) }
    ensures err { OnErr result (BeginsWith out.old out.new) }
{
    if word.len() > ROW_WORD || numbers.len() > ROW_NUMBERS {
        put_token(word, out)?;
        return put_numbers(numbers, out);
    }
    let mut row = ShortText::new();
    add_row(&mut row, word, numbers);
    out.append(row.bytes())
}

// Puts a word and numbers, with a space before each.
fn add_row(row: &mut ShortText, word: &[u8], numbers: &[u64])
    requires { length word.now + 21 * length numbers.now < row.old.room }
    ensures items { row.new.items ≡ spaced (word.now ∷ map decimal numbers.now) ++ row.old.items }
    ensures room { row.old.room ≤ row.new.room + (length word.now + 1 + 21 * length numbers.now) }
{
    add_numbers(row, numbers);
    row.put_word(b' ', word);
}

// Puts numbers, with a space before each.
fn add_numbers(row: &mut ShortText, numbers: &[u64])
    requires { 21 * length numbers.now ≤ row.old.room }
    ensures items { row.new.items ≡ spaced (map decimal numbers.now) ++ row.old.items }
    ensures room { row.old.room ≤ row.new.room + 21 * length numbers.now }
{
    let mut left = numbers.len();
    while left > 0 {
        left -= 1;
        row.put_marked(b' ', numbers[left]);
    }
}

/// Appends numbers, with a space before each.
pub(crate) fn put_numbers(numbers: &[u64], out: &mut Bytes) -> Result<(), NoMemory>
    ensures ok { OnOk result (out.new ≡ out.old ++ spaced (map decimal numbers.now)) }
    ensures err { OnErr result (BeginsWith out.old out.new) }
{
    if numbers.len() <= ROW_NUMBERS {
        return put_few(numbers, out);
    }
    for number in numbers {
        put_number(*number, out)?;
    }
    Ok(())
}

// Appends at most four numbers at once, with a space before each.
fn put_few(numbers: &[u64], out: &mut Bytes) -> Result<(), NoMemory>
    requires { length numbers.now ≤ 4 }
    ensures ok { OnOk result (out.new ≡ out.old ++ spaced (map decimal numbers.now)) }
    ensures err { OnErr result (out.new ≡ out.old) }
{
    let mut row = ShortText::new();
    add_numbers(&mut row, numbers);
    out.append(row.bytes())
}

/// Appends a token with a space before it.
pub fn put_token(token: &[u8], out: &mut Bytes) -> Result<(), NoMemory>
    ensures ok { OnOk result (out.new ≡ out.old ++ spaced (token.now ∷ [])) }
    ensures err { OnErr result (BeginsWith out.old out.new) }
{
    out.push(b' ')?;
    out.append(token)
}

/// Appends a number with a space before it.
pub fn put_number(number: u64, out: &mut Bytes) -> Result<(), NoMemory>
    ensures ok { OnOk result (out.new ≡ out.old ++ 32 ∷ decimal number) }
    ensures err { OnErr result (BeginsWith out.old out.new) }
{
    let mut text = ShortText::new();
    text.put_marked(b' ', number);
    out.append(text.bytes())
}
