// The plan of a test: the refusals, and level 0; else the walk.
ghost use Rattle.std.specs.Prelude.{◌≡◌};
ghost use Rattle.test.specs.Tested.{plan_test};

use crate::Plan;
use crate::after::flag_of;
use definition::{Registers, Test};

// The refusals; level 0 looks at TT0 and TT1 alone. `two`: the base is bad; `crossed`: a range is crossed.
pub fn plan_test(
    two: bool,
    crossed: bool,
    g: Registers,
    code: u32,
    write: bool,
    level: u32,
    address: u32,
) -> Plan
    ensures { result ≡ plan_test g code write level address two crossed }
{
    let one = checks::no_family(g.family);
    let six = checks::not_030(g.family);
    let five = checks::above_seven(code) | checks::above_seven(level);
    let n = checks::first_refusal(one, six, five, two, crossed, false);
    if n != 0 {
        return Plan::Settled(Test::Refused(n));
    }
    if level == 0 {
        let matched = transparent::transparent_030(g, address, code, write);
        let mmusr = flag_of(matched, 0x0040);
        return Plan::Settled(Test::Status { mmusr, address: 0 });
    }
    Plan::Walk030
}
