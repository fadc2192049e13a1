// The replay: what each record of a trace does and prints, over state that the caller keeps. No input and no output.
#![tactic(auto)]

mod calls;
pub mod run;
mod settings;

ghost use Rattle.std.specs.Prelude.{◌≡◌};
ghost use Rattle.definition.specs.Trace.{first_registers};

use definition::{Registers, Root};
use memory::kept::RangeList;

// What the program keeps beside the caches and the longs: the registers and the ranges.
#[derive(Clone, Copy)]
pub struct Kept {
    pub registers: Registers,
    pub ranges: RangeList,
}

// Registers start as family 30, all else 0; no range.
pub fn first() -> Kept
    ensures { (result.registers ≡ first_registers) × (result.ranges.n ≡ 0) }
{
    let none = Root {
        limit: 0,
        address: 0,
    };
    let registers = Registers {
        family: 30,
        present: false,
        enabled: false,
        tc: 0,
        crp: none,
        srp: none,
        tt0: 0,
        tt1: 0,
        itt0: 0,
        itt1: 0,
        dtt0: 0,
        dtt1: 0,
    };
    Kept {
        registers,
        ranges: RangeList::new(),
    }
}
