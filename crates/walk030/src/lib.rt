// The 68030 walk over lent longs and lent bus-error ranges.
#![tactic(auto)]

mod machine;

ghost use Rattle.std.specs.Prelude.{◌≡◌};
ghost use Rattle.definition.specs.Registers.{root_of};
ghost use Rattle.definition.specs.Walk030.{outcome_of, walk030};
ghost use Rattle.walk030.specs.Machine.{misconfigured_of};
ghost use Rattle.walk030.specs.Walked.{shown};

use definition::{End, Range, Registers, Root};
use machine::{Walking030, level_count};
use memory::bits::bit;
use memory::descriptor::{Kind, read_desc};
use memory::page030::widths;
use memory::tables::Tables;

// How a 68030 walk ended, with WP and S, the levels, the last descriptor's address and the number of longs asked for.
#[derive(Clone, Copy)]
pub struct Walked {
    pub end: End,
    pub wp: bool,
    pub sup: bool,
    pub levels: u32,
    pub last: u32,
    pub asked: u32,
}

// SRP is used if TC bit 25 is set and code bit 2 is set; else CRP.
pub fn root_of(g: Registers, code: u32) -> Root
    ensures { result ≡ root_of g code }
{
    let sre = bit(g.tc, 25);
    let supervisor = bit(code, 2);
    if sre & supervisor {
        let srp = g.srp;
        return srp;
    }
    let crp = g.crp;
    crp
}

// As many levels as there can be: the function code's and four widths.
pub const EVERY_LEVEL: u32 = 5;

// A configuration fault has the root's address for the last descriptor's.
fn misconfigured(root: Root) -> Walked
    ensures { result ≡ misconfigured_of root }
{
    Walked {
        end: End::Config,
        wp: false,
        sup: false,
        levels: 0,
        last: root.address,
        asked: 0,
    }
}

// The walk from a root ends at the first descriptor that decides. It is handed TC and its root, and no more of the registers: a call that walks
// on some ways alone then makes no copy of them on the others.
pub fn walk_030(
    tables: &Tables<&[Range]>,
    tc: u32,
    root: Root,
    address: u32,
    code: u32,
    limit: u32,
) -> Walked
    ensures { result ≡ shown (outcome_of tables.now tc root address code limit) }
{
    let ws = widths(tc);
    let n = level_count(ws);
    let Some(mut s) = Walking030::begin(tc, root, n) else {
        return misconfigured(root);
    };
    let end = loop {
        if s.is_at_limit(limit) {
            break End::LevelStop;
        }
        s = s.aim(ws, address, code);
        let read = read_desc(tables, s.last, s.long);
        s = s.seen(n, read);
        let d = match read {
            Ok(d) => d,
            Err(lost) => break End::BusError { at: lost.at },
        };
        match d.kind {
            Kind::Page => {
                break End::Page {
                    field: d.field,
                    consumed: s.consumed,
                };
            }
            Kind::Invalid => break End::Invalid { indirect: s.target },
            Kind::Table { long } => {
                if s.target {
                    break End::Invalid { indirect: s.target };
                }
                s = s.onward(n, long, d.field);
            }
        }
    };
    s.answer(end)
}

// The walk in a code's space under these registers, of at most `limit` levels.
pub fn walk(tables: &Tables<&[Range]>, g: Registers, address: u32, code: u32, limit: u32) -> Walked
    ensures { result ≡ shown (walk030 tables.now g address code limit) }
{
    let root = root_of(g, code);
    walk_030(tables, g.tc, root, address, code, limit)
}
