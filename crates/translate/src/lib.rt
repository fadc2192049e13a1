// Translate in place: 'No PMMU or not enabled: the address itself. .. Then transparent registers, cache, walk.'
// It is written here and nowhere else: the calls by value, the host's door and the replay hand on to `translate`.
#![tactic(auto)]

mod after;
mod before;

ghost use Rattle.std.specs.Prelude.{◌≡◌};
ghost use Rattle.definition.specs.Memory.{memory};
ghost use Rattle.cache.specs.Pair.{caches_of};
ghost use Rattle.translate.specs.Stages.{found_of, shown_translated, translate_given};
ghost use Rattle.translate.specs.InPlace.{AnsweredIn};
ghost use Rattle.translate.specs.declared.Found.{Found};

use cache::atc030::Atc030;
use cache::atc040::Atc040;
use definition::{Access, Range, Registers, Translation};
use memory::tables::Tables;
use walk030::Walked;
use walk040::Walked040;

// What is settled before the tables are asked: the answer itself, or the walk to make.
#[derive(Clone, Copy)]
pub enum Plan {
    Settled(Translation),
    Walk030 { code: u32 },
    Walk040 { supervisor: bool },
}

// An answer with its count: how many longs were asked for.
#[derive(Clone, Copy)]
pub struct Outcome {
    pub answer: Translation,
    pub count: u32,
}

// The walk that the plan asked for is made: the answer itself, or how the walk ended.
#[derive(Clone, Copy)]
pub enum Found {
    Settled(Translation),
    By030 { code: u32, walk: Walked },
    By040 { supervisor: bool, walk: Walked040 },
}

// The answer itself.
fn settled(answer: Translation) -> Found
    ensures { result ≡ Found.Settled answer }
{
    Found::Settled(answer)
}

// How a 68030 walk in a code's space ended.
fn by_030(code: u32, walk: Walked) -> Found
    ensures { result ≡ Found.By030 code walk }
{
    Found::By030 { code, walk }
}

// How a 68040 walk ended.
fn by_040(supervisor: bool, walk: Walked040) -> Found
    ensures { result ≡ Found.By040 supervisor walk }
{
    Found::By040 { supervisor, walk }
}

// The walk that a plan asks for.
fn walked(longs: &[u32], base: u32, ranges: &[Range], g: Registers, a: Access, plan: Plan) -> Found
    ensures { result ≡ found_of (memory longs.now base ranges.now) g a plan }
{
    let tables = Tables {
        longs,
        base,
        ranges,
    };
    match plan {
        Plan::Settled(answer) => settled(answer),
        Plan::Walk030 { code } => {
            let address = checks::address_of(a);
            let limit = walk030::EVERY_LEVEL;
            let root = walk030::root_of(g, code);
            let walk = walk030::walk_030(&tables, g.tc, root, address, code, limit);
            by_030(code, walk)
        }
        Plan::Walk040 { supervisor } => {
            let address = checks::address_of(a);
            let walk = walk040::walk(&tables, g, address, supervisor);
            by_040(supervisor, walk)
        }
    }
}

// Translate over the caches, the longs and the ranges that the caller lends: planned, walked, concluded. `crossed` is what the caller says of
// check 3, that a range is crossed: one that keeps ranges knows it, and no call has to search them.
pub fn translate(
    c030: &mut Atc030,
    c040: &mut Atc040,
    longs: &[u32],
    base: u32,
    ranges: &[Range],
    crossed: bool,
    g: Registers,
    a: Access,
) -> Outcome
    ensures { AnsweredIn (shown_translated (translate_given crossed g a (memory longs.now base ranges.now) (caches_of c030.old c040.old))) result.answer result.count c030.new c040.new }
{
    let two = checks::bad_longs(longs, base);
    let plan = before::plan_access(c030, c040, two, crossed, g, a);
    let found = walked(longs, base, ranges, g, a, plan);
    after::concluded(c030, c040, g, a, found)
}
