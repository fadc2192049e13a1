// Test in place: 'PTEST works whether enabled or not and touches no cache.'
// It is written here and nowhere else: the calls by value, the host's door and the replay hand on to `test`.
#![tactic(auto)]

mod after;
mod before;

ghost use Rattle.std.specs.Prelude.{◌≡◌};
ghost use Rattle.definition.specs.Memory.{memory};
ghost use Rattle.test.specs.Tested.{test_given, found_test, shown_tested, TestedIn};
ghost use Rattle.test.specs.declared.Found.{Found};

use definition::{Range, Registers, Test};
use memory::tables::Tables;
use walk030::Walked;

// What is settled before the tables are asked: the answer itself, or the walk to make.
#[derive(Clone, Copy)]
pub enum Plan {
    Settled(Test),
    Walk030,
}

// The walk that the plan asked for is made: the answer itself, or how the walk ended.
#[derive(Clone, Copy)]
pub enum Found {
    Settled(Test),
    By030(Walked),
}

// An answer with its count.
#[derive(Clone, Copy)]
pub struct TestOutcome {
    pub answer: Test,
    pub count: u32,
}

// The answer itself.
fn settled(answer: Test) -> Found
    ensures { result ≡ Found.Settled answer }
{
    Found::Settled(answer)
}

// How the walk ended.
fn by_030(walk: Walked) -> Found
    ensures { result ≡ Found.By030 walk }
{
    Found::By030(walk)
}

// The walk that a plan asks for, of at most `level` levels.
fn walked(
    longs: &[u32],
    base: u32,
    ranges: &[Range],
    g: Registers,
    code: u32,
    level: u32,
    address: u32,
    plan: Plan,
) -> Found
    ensures { result ≡ found_test (memory longs.now base ranges.now) g code level address plan }
{
    match plan {
        Plan::Settled(answer) => settled(answer),
        Plan::Walk030 => {
            let tables = Tables {
                longs,
                base,
                ranges,
            };
            let root = walk030::root_of(g, code);
            let walk = walk030::walk_030(&tables, g.tc, root, address, code, level);
            by_030(walk)
        }
    }
}

// Test over the longs and the ranges that the caller lends: planned, walked, concluded. `crossed` is what the caller says of check 3, that a
// range is crossed. The write byte is what TT0 and TT1 are asked for, at level 0.
pub fn test(
    longs: &[u32],
    base: u32,
    ranges: &[Range],
    crossed: bool,
    g: Registers,
    code: u32,
    write: bool,
    level: u32,
    address: u32,
) -> TestOutcome
    ensures { TestedIn (shown_tested (test_given crossed g code write level address (memory longs.now base ranges.now))) result.answer result.count }
{
    let two = checks::bad_longs(longs, base);
    let plan = before::plan_test(two, crossed, g, code, write, level, address);
    let found = walked(longs, base, ranges, g, code, level, address, plan);
    after::concluded(code, found)
}
