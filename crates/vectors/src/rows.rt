// The rows of an input, over a buffer that does not grow with it.
ghost use Rattle.std.specs.Prelude.{◌≡◌, ◌-◌, ◌≤◌, length, take, drop, IfOk, IfSome};

use crate::{Cursor, Malformed, read_row};
use std::io::Read;

// Reads until the buffer is full, the input ends or a read fails: how many bytes came.
fn read_full<R: Read>(input: &mut R, buf: &mut [u8]) -> usize
    ensures { result ≤ length buf.new }
{
    let mut done = 0;
    // No index counts up here: each read says how far it came.
    while done < buf.len() {
        match input.read(&mut buf[done..]) {
            Ok(0) | Err(_) => {
                return done;
            }
            Ok(n) => {
                done += n;
            }
        }
    }
    done
}

// From `from` up to `to` stand the bytes that are read and not used yet (a Range is moved, and not copied); the numbers are those
// of the row that was read last.
#[derive(Drop)]
pub(crate) struct Rows<R: Read + Drop> {
    input: R,
    buf: [u8; 65536],
    from: usize,
    to: usize,
    numbers: [u32; 128],
    ghost ordered: { from ≤ to },
    ghost within: { to ≤ 65536 },
}

impl<R: Read + Drop> Rows<R> {
    // Nothing is read yet.
    pub(crate) fn new(input: R) -> Self {
        Rows {
            input,
            buf: [0; 65536],
            from: 0,
            to: 0,
            numbers: [0; 128],
        }
    }

    // The row that the buffer has next: how many numbers. None: the buffer ends before the row does.
    fn buffered(&mut self) -> Result<Option<usize>, Malformed>
        ensures { IfOk result (λ row. IfSome row (λ count. count ≤ 128)) }
    {
        let start = Cursor { at: self.from };
        let Some(row) = read_row(&self.buf[..self.to], start, &mut self.numbers)? else {
            return Ok(None);
        };
        self.from = row.next.at;
        Ok(Some(row.count))
    }

    // Moves what is not used yet to the front, and reads on behind it.
    fn refill(&mut self)
        ensures front { take (self.old.to - self.old.from) self.new.buf ≡ take (self.old.to - self.old.from) (drop self.old.from self.old.buf) }
        ensures from { self.new.from ≡ 0 }
        ensures to { self.old.to - self.old.from ≤ self.new.to }
    {
        let n = self.to - self.from;
        self.buf.copy_within(self.from..self.to, 0);
        let got = read_full(&mut self.input, &mut self.buf[n..]);
        self.from = 0;
        self.to = n + got;
    }

    // The numbers of the next row: where the buffer ends before the row does, it is filled again, once. None: there is no row any
    // more. A line that is not ended is malformed.
    pub(crate) fn next_row(&mut self) -> Result<Option<&[u32]>, Malformed> {
        let mut found = self.buffered()?;
        if found.is_none() {
            self.refill();
            found = self.buffered()?;
        }
        match found {
            Some(count) => Ok(Some(&self.numbers[..count])),
            None if self.to == 0 => Ok(None),
            None => Err(Malformed),
        }
    }
}
