// Rows of decimal numbers out of a file, over a buffer that does not grow with the file, and a tally of rows that differ.
// A row is numbers below 2^32, one space between two, and a line's end after the last.
#![tactic(auto)]

ghost use Rattle.std.specs.Prelude.{◌≡◌, ◌+◌, ◌≤◌, length, take, drop};
ghost use Rattle.vectors.specs.Rows.{digit_of, closed_by, number_at, Ahead, row_at, shown, Within};

mod rows;
mod tally;

pub use tally::{Tally, every_row};

// Where the next number of a text starts.
#[derive(Clone, Copy, Debug, PartialEq, Eq)]
pub struct Cursor {
    pub at: usize,
}

// A number: the row's last where a line's end comes after it.
#[derive(Clone, Copy, Debug, PartialEq, Eq)]
pub struct Number {
    pub value: u32,
    pub last: bool,
    pub next: Cursor,
}

// A row of so many numbers.
#[derive(Clone, Copy)]
struct Row {
    count: usize,
    next: Cursor,
}

// What stands there is no row of numbers.
#[derive(Clone, Copy, Debug, PartialEq, Eq)]
pub struct Malformed;

// The digit that a byte is.
fn digit_of(b: u8) -> Option<u64>
    ensures { result ≡ digit_of b }
{
    if b'0' <= b && b <= b'9' {
        return Some(u64::from(b - b'0'));
    }
    None
}

// The number whose digits, if there are `some`, come before the byte `b`: a space, or a line's end after the row's last.
fn closed_by(some: bool, value: u32, b: u8, next: usize) -> Result<Option<Number>, Malformed>
    ensures { result ≡ closed_by some value b next }
{
    if some && (b == b' ' || b == b'\n') {
        return Ok(Some(Number {
            value,
            last: b == b'\n',
            next: Cursor { at: next },
        }));
    }
    Err(Malformed)
}

// The number at a cursor. None: the text ends before the number does.
pub fn read_number(text: &[u8], c: Cursor) -> Result<Option<Number>, Malformed>
    ensures value { result ≡ number_at text.now c.at }
    ensures ahead { Ahead result c.at (length text.now) }
{
    let start = c.at;
    let mut value: u64 = 0;
    for i in start..text.len() {
        let b = text[i];
        let Some(d) = digit_of(b) else {
            return closed_by(start < i, value as u32, b, i + 1);
        };
        value = value * 10 + d;
        if 4294967296 <= value {
            return Err(Malformed);
        }
    }
    Ok(None)
}

// The row at a cursor: its numbers are put at the start of `numbers`, which has to have room for them. None: the text ends before
// the row does.
fn read_row(text: &[u8], c: Cursor, numbers: &mut [u32]) -> Result<Option<Row>, Malformed>
    ensures numbers_after { shown result numbers.new ≡ row_at text.now (length numbers.old) c.at }
    ensures within { Within result (length numbers.old) (length text.now) c.at }
{
    let mut at = c;
    for i in 0..numbers.len() {
        let Some(number) = read_number(text, at)? else {
            return Ok(None);
        };
        numbers[i] = number.value;
        let next = number.next;
        if number.last {
            return Ok(Some(Row { count: i + 1, next }));
        }
        at = next;
    }
    Err(Malformed)
}
