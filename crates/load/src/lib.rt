// Load in place: 'PLOAD, only with an enabled PMMU, drops the page (mask 7), stops if there is no page shift or TT0 or TT1 matches, and searches and caches.'
// It is written here and nowhere else: the calls by value, the host's door and the replay hand on to `load`.
#![tactic(auto)]

mod after;
mod before;

ghost use Rattle.std.specs.Prelude.{◌≡◌};
ghost use Rattle.definition.specs.Memory.{memory};
ghost use Rattle.definition.specs.Cache040.{Cache040};
ghost use Rattle.cache.specs.Atc030.{cache_of};
ghost use Rattle.cache.specs.Pair.{pair_with};
ghost use Rattle.load.specs.Loaded.{load_given, found_load, shown_loaded, LoadedIn};
ghost use Rattle.load.specs.declared.Found.{Found};

use cache::atc030::Atc030;
use definition::{Load, Range, Registers};
use memory::tables::Tables;
use walk030::Walked;

// What is settled before the tables are asked: the answer itself, or the walk to make.
#[derive(Clone, Copy)]
pub enum Plan {
    Settled(Load),
    Walk030 { code: u32 },
}

// The walk that the plan asked for is made: the answer itself, or how the walk ended.
#[derive(Clone, Copy)]
pub enum Found {
    Settled(Load),
    By030 { code: u32, walk: Walked },
}

// An answer with its count.
#[derive(Clone, Copy)]
pub struct LoadOutcome {
    pub answer: Load,
    pub count: u32,
}

// The answer itself.
fn settled(answer: Load) -> Found
    ensures { result ≡ Found.Settled answer }
{
    Found::Settled(answer)
}

// How the walk ended.
fn by_030(code: u32, walk: Walked) -> Found
    ensures { result ≡ Found.By030 code walk }
{
    Found::By030 { code, walk }
}

// The walk that a plan asks for.
fn walked(
    longs: &[u32],
    base: u32,
    ranges: &[Range],
    g: Registers,
    address: u32,
    plan: Plan,
) -> Found
    ensures { result ≡ found_load (memory longs.now base ranges.now) g address plan }
{
    match plan {
        Plan::Settled(answer) => settled(answer),
        Plan::Walk030 { code } => {
            let limit = walk030::EVERY_LEVEL;
            let tables = Tables {
                longs,
                base,
                ranges,
            };
            let root = walk030::root_of(g, code);
            let walk = walk030::walk_030(&tables, g.tc, root, address, code, limit);
            by_030(code, walk)
        }
    }
}

// Load over the 68030 cache, the longs and the ranges that the caller lends: planned, walked, concluded. `crossed` is what the caller says of
// check 3, that a range is crossed.
pub fn load(
    c030: &mut Atc030,
    longs: &[u32],
    base: u32,
    ranges: &[Range],
    crossed: bool,
    g: Registers,
    code: u32,
    write: bool,
    address: u32,
) -> LoadOutcome
    ensures { (k : Cache040) → LoadedIn (shown_loaded (load_given crossed g code write address (memory longs.now base ranges.now) (pair_with (cache_of c030.old) k))) result.answer result.count c030.new }
{
    let two = checks::bad_longs(longs, base);
    let plan = before::plan_load(c030, two, crossed, g, code, write, address);
    let found = walked(longs, base, ranges, g, address, plan);
    after::concluded(c030, g, write, address, found)
}
