// What the walk gives a test: the status, and the address of the last descriptor asked for.
ghost use Rattle.std.specs.Prelude.{◌≡◌};
ghost use Rattle.definition.specs.Test.{flag, end_flags, mmusr_of};
ghost use Rattle.test.specs.Tested.{concluded_test, TestedIn};

use crate::{Found, TestOutcome};
use definition::{End, Test};
use walk030::Walked;

// A flag's bit where it is set.
pub fn flag_of(b: bool, bit: u32) -> u32
    ensures { result ≡ flag b bit }
{
    if b {
        return bit;
    }
    0
}

// B 8000 for bus error or configuration, I 0400.
fn end_flags(end: End) -> u32
    ensures { result ≡ end_flags end }
{
    match end {
        End::Page { .. } => 0,
        End::Invalid { .. } => 0x0400,
        End::LevelStop => 0,
        End::BusError { .. } => 0x8000,
        End::Config => 0x8000,
    }
}

// The MMUSR: B and I by the end, S 2000 (user code), W 0800, N levels.
fn status(code: u32, w: Walked) -> u32
    ensures { result ≡ mmusr_of code w.wp w.sup w.levels w.end }
{
    let end = w.end;
    let by_end = end_flags(end);
    let s = flag_of(w.sup & !((code >> 2) % 2 == 1), 0x2000);
    let protect = flag_of(w.wp, 0x0800);
    by_end % 65536 + s % 65536 + protect % 65536 + w.levels % 8
}

// The answer and its count.
pub fn concluded(code: u32, found: Found) -> TestOutcome
    ensures { TestedIn (concluded_test code found) result.answer result.count }
{
    match found {
        Found::Settled(answer) => TestOutcome { answer, count: 0 },
        Found::By030(walk) => {
            let mmusr = status(code, walk);
            TestOutcome {
                answer: Test::Status {
                    mmusr,
                    address: walk.last,
                },
                count: walk.asked,
            }
        }
    }
}
