// The two sides of a pair: a replay read from its file and played, the records of its trace, and the lines of its accesses.
use std::fmt;
use std::rt::Files;
use stored::files;
use stored::files::Unheld;

// A replay: its trace, and its lines.
#[derive(Clone, Copy)]
pub struct Side<'a> {
    pub trace: &'a [u8],
    pub text: &'a [u8],
}

// The buffers of a replay.
#[derive(Clone, Copy)]
pub struct Buffers {
    trace: [u8; 4096],
    text: [u8; 4096],
}

// Why a replay could not be played to its end.
#[derive(Clone, Copy)]
pub enum Unplayed {
    Unheld(Unheld),
    NoRoom,
    Stopped,
}

impl fmt::Display for Unplayed {
    fn fmt<W: fmt::Write>(&self, f: &mut fmt::Formatter<W>) -> fmt::Result {
        match self {
            Unplayed::Unheld(why) => write!(f, "{why}"),
            Unplayed::NoRoom => write!(f, "has too many lines"),
            Unplayed::Stopped => write!(f, "is malformed"),
        }
    }
}

impl From<Unheld> for Unplayed {
    fn from(why: Unheld) -> Unplayed {
        Unplayed::Unheld(why)
    }
}

impl Buffers {
    pub fn new() -> Self {
        Buffers {
            trace: [0; 4096],
            text: [0; 4096],
        }
    }
}

// Reads a replay's trace and plays it to its end.
pub fn play_named<'a, F: Files>(
    rt: &F,
    name: &[u8],
    after: &str,
    buffers: &'a mut Buffers,
) -> Result<Side<'a>, Unplayed> {
    let Buffers { trace, text } = buffers;
    let trace = files::read_named(rt, name, after, trace)?;
    let Ok(n) = whole::play(trace, text) else {
        return Err(Unplayed::NoRoom);
    };
    let text = text.get(..n).ok_or(Unplayed::Stopped)?;
    if text.ends_with(b"end\n") {
        return Ok(Side { trace, text });
    }
    Err(Unplayed::Stopped)
}

// The first record, a 2-byte length and its body, and what comes after it; all of it where it has no whole one.
fn split_record(records: &[u8]) -> (&[u8], &[u8]) {
    let n = match records {
        [high, low, ..] => 2 + 256 * usize::from(*high) + usize::from(*low),
        _ => records.len(),
    };
    records.split_at(n.min(records.len()))
}

impl<'a> Side<'a> {
    // The records from record `n` on, from 0: the first one follows the version byte.
    fn records(self, n: u32) -> &'a [u8] {
        let mut records = self.trace.get(1..).unwrap_or(&[]);
        for _ in 0..n {
            records = split_record(records).1;
        }
        records
    }

    // The line of record `n`. The version's line comes before the first record's.
    pub fn answer(self, n: u32) -> Answer<'a> {
        let mut lines = self.text.split_inclusive(|b| *b == b'\n');
        let line = lines.nth(n as usize + 1).unwrap_or(&[]);
        let space = line.iter().rposition(|b| *b == b' ').unwrap_or(0);
        let (told, count) = line.split_at(space);
        Answer { told, count }
    }

    // How many records were played: all lines but the first and the last.
    pub fn record_count(self) -> usize {
        self.text
            .split_inclusive(|b| *b == b'\n')
            .count()
            .saturating_sub(2)
    }
}

// Whether record `one` of the first trace and record `two` of the second are the same access: its kind, 02, comes after the length.
pub fn same_access(first: Side, one: u32, second: Side, two: u32) -> bool {
    let first = first.records(one);
    let second = second.records(two);
    first.get(2) == Some(&2) && split_record(first).0 == split_record(second).0
}

// An access's line: what it is answered, and its count with the space before.
#[derive(Clone, Copy)]
pub struct Answer<'a> {
    pub told: &'a [u8],
    pub count: &'a [u8],
}
