// A file by its name, read whole into a buffer.
ghost use Rattle.std.specs.Prelude.{◌≤◌, length, IfOk};

use crate::text::Text;
use std::io::Read;
use std::rt::Files;
use std::{fmt, fs};

// Why a file gave no bytes.
#[derive(Clone, Copy, Debug, PartialEq, Eq)]
pub enum Unheld {
    Unopened,
    Unread,
    TooLarge,
}

impl fmt::Display for Unheld {
    fn fmt<W: fmt::Write>(&self, f: &mut fmt::Formatter<W>) -> fmt::Result {
        match self {
            Unheld::Unopened => write!(f, "can't be opened"),
            Unheld::Unread => write!(f, "can't be read"),
            Unheld::TooLarge => write!(f, "is too large"),
        }
    }
}

// Reads to the end: how many bytes there are. A buffer that is full before the end is met is too small.
fn read_to_end<R: Read>(file: &mut R, buffer: &mut [u8]) -> Result<usize, Unheld>
    ensures { IfOk result (λ n. n ≤ length buffer.new) }
{
    let mut have = 0;
    // No index counts up here: each read says how far it came.
    while have < buffer.len() {
        match streams::fill(file, buffer, have) {
            Ok(Some(n)) => {
                have = n;
            }
            Ok(None) => {
                return Ok(have);
            }
            Err(_) => {
                return Err(Unheld::Unread);
            }
        }
    }
    Err(Unheld::TooLarge)
}

// The bytes of the file whose name is `name` with `after` behind it.
pub fn read_named<'a, F: Files>(
    rt: &F,
    name: &[u8],
    after: &str,
    buffer: &'a mut [u8],
) -> Result<&'a [u8], Unheld> {
    let mut path = Text::<128>::new();
    path.push(name);
    path.print(after);
    if path.is_full() {
        return Err(Unheld::Unopened);
    }
    let path = std::str::from_utf8(path.as_bytes()).map_err(|_| Unheld::Unopened)?;
    let mut file = fs::open(rt, path).map_err(|_| Unheld::Unopened)?;
    let n = read_to_end(&mut file, buffer)?;
    Ok(&buffer[..n])
}
