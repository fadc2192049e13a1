// Bytes in and out: a buffer filled from a reader, bytes and text written to standard output, and text put together in a buffer.
#![tactic(auto)]

pub mod hex;
pub mod text;

ghost use Rattle.streams.specs.Filled.{Filled};

use std::fmt::Display;
use std::io::{Error, ErrorKind, Read};

// ---- In.

// Reads once, into the buffer from `have` on: how many bytes wait with those that came, or nothing at the input's end. The bytes
// before stay.
pub fn fill<R: Read>(input: &mut R, buffer: &mut [u8], have: usize) -> Result<Option<usize>, Error>
    ensures { Filled buffer.old have result buffer.new }
{
    if buffer.len() < have {
        return Err(Error::from(ErrorKind::InvalidInput));
    }
    match input.read(&mut buffer[have..])? {
        0 => Ok(None),
        n => Ok(Some(have + n)),
    }
}

// ---- Out.

// A write failed, and standard error says so.
#[derive(Clone, Copy)]
pub struct Unwritten;

// Says so.
fn failed<P: Eprint>(rt: &P) -> Unwritten {
    let _ = rt.eprintln("a write failed");
    Unwritten
}

// Writes all of it, or says on standard error that it could not.
pub fn written<P: Print + Eprint>(rt: &P, bytes: &[u8]) -> Result<(), Unwritten> {
    rt.write_all(bytes).map_err(|_| failed(rt))
}

// The same of what `text` prints.
pub fn printed<P: Print + Eprint, D: Display + Drop>(rt: &P, text: D) -> Result<(), Unwritten> {
    rt.print(text).map_err(|_| failed(rt))
}
