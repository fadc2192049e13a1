// What is said of the caches that a trace leaves: a line for each stale entry, and how many entries there are.
use audit::audit_lent;
use audit::finding::finding_lent;
use definition::{Audit, Finding, Translation};
use playing::{Replay, Sheet};
use replay::Kept;
use std::fmt;
use std::fmt::{Display, Formatter, Write};

// What the cache gives.
#[derive(Clone, Copy)]
struct Cached(Option<u64>);

impl Display for Cached {
    fn fmt<W: Write>(&self, f: &mut Formatter<W>) -> fmt::Result {
        match self.0 {
            Some(base) => {
                let low = (base % 4294967296) as u32;
                write!(f, "{low:08X}")
            }
            None => write!(f, "nothing"),
        }
    }
}

// What the tables give: an address, or a fault's kind and cause.
#[derive(Clone, Copy)]
struct Walked(Translation);

impl Display for Walked {
    fn fmt<W: Write>(&self, f: &mut Formatter<W>) -> fmt::Result {
        match self.0 {
            Translation::Address(x) => write!(f, "{x:08X}"),
            Translation::Fault { kind, cause, .. } => {
                let kind = definition::kind_number(kind);
                let cause = definition::cause_number(cause);
                write!(f, "fault {kind} {cause}")
            }
            Translation::Refused(n) => write!(f, "refusal {n}"),
        }
    }
}

// The page and the code of an entry.
#[derive(Clone, Copy)]
struct Key(Finding);

impl Display for Key {
    fn fmt<W: Write>(&self, f: &mut Formatter<W>) -> fmt::Result {
        match self.0 {
            Finding::Says { address, code, .. } => write!(f, ", page {address:08X}, code {code}"),
            Finding::Refused(n) => write!(f, ", refusal {n}"),
        }
    }
}

// What the cache and the tables say to an access.
#[derive(Clone, Copy)]
struct Said {
    access: &'static str,
    finding: Finding,
}

impl Display for Said {
    fn fmt<W: Write>(&self, f: &mut Formatter<W>) -> fmt::Result {
        let access = self.access;
        match self.finding {
            Finding::Says { cached, tables, .. } => {
                let cached = Cached(cached);
                let tables = Walked(tables);
                write!(f, "; {access}: cache {cached}, tables {tables}")
            }
            Finding::Refused(_) => Ok(()),
        }
    }
}

// One stale entry: its cache and index, page and code, and what the cache and the tables say to a read and to a write.
#[derive(Clone, Copy)]
struct Stale {
    cache: &'static str,
    i: u32,
    read: Finding,
    write: Finding,
}

impl Display for Stale {
    fn fmt<W: Write>(&self, f: &mut Formatter<W>) -> fmt::Result {
        let cache = self.cache;
        let i = self.i;
        let key = Key(self.read);
        let read = Said {
            access: "read",
            finding: self.read,
        };
        let write = Said {
            access: "write",
            finding: self.write,
        };
        write!(f, "stale: {cache} entry {i}{key}{read}{write}")
    }
}

// What the cache and the tables say of entry i to a read or a write.
fn found(r: &Replay, i: u32, write: bool) -> Finding {
    let Kept { registers, ranges } = r.kept;
    let ranges = ranges.as_slice();
    finding_lent(&r.c030, &r.c040, &r.longs, 0, ranges, registers, i, write)
}

// The first stale entry at `from` or above.
fn audited(r: &Replay, from: u32) -> Audit {
    let Kept { registers, ranges } = r.kept;
    audit_lent(
        &r.c030,
        &r.c040,
        &r.longs,
        0,
        ranges.as_slice(),
        registers,
        from,
    )
}

// The caches are refused, by this number.
#[derive(Clone, Copy)]
pub struct Refused(pub u32);

// A line for each stale entry, at most 64 of fewer than 200 bytes: how many there are. A replay's caches are never refused.
pub fn name_stale(sheet: &mut Sheet, replay: &Replay) -> Result<u64, Refused> {
    let mut from = 0;
    for n in 0..64 {
        let (cache, i) = match audited(replay, from) {
            Audit::Clean => return Ok(n),
            Audit::Stale030(i) => ("68030", i),
            Audit::Stale040(i) => ("68040", i),
            Audit::Refused(number) => return Err(Refused(number)),
        };
        let stale = Stale {
            cache,
            i,
            read: found(replay, i, false),
            write: found(replay, i, true),
        };
        sheet.print(format_args!("{stale}\n"));
        from = i % 64 + 1;
    }
    Ok(64)
}

// Whether the family's cache has a valid entry at i: a read of its key is a hit.
fn is_cached(r: &Replay, i: u32) -> bool {
    match found(r, i, false) {
        Finding::Says { cached, .. } => cached.is_some(),
        Finding::Refused(_) => false,
    }
}

// How many valid entries the family's cache has.
pub fn entries(replay: &Replay) -> usize {
    (0..64).filter(|i| is_cached(replay, *i)).count()
}
