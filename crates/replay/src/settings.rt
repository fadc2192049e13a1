// The records that set something: each with its line, and what is kept after it.
ghost use Rattle.std.specs.Prelude.{◌≡◌, ℕ, List};
ghost use Rattle.definition.specs.Words.{any_of};
ghost use Rattle.definition.specs.Refusal.{crossed};
ghost use Rattle.definition.specs.Trace.{Loads, Adds, step_of};
ghost use Rattle.trace.specs.Records.{setting_in};
ghost use Rattle.replay.specs.Playing.{ranges_of, state_of, StoredIn, PlayedIn};

use crate::Kept;
use definition::{Range, Registers};
use memory::kept::Full;
use trace::{Line, Setting};

// Kind 01: the registers are kept, unless the family is none.
fn set_registers(kept: &mut Kept, g: Registers) -> Line
    ensures played { (longs c030 c040 : List ℕ) → PlayedIn (step_of (state_of kept.old longs c030 c040) (Loads g)) result kept.new longs c030 c040 }
    ensures ranges { ranges_of kept.new ≡ ranges_of kept.old }
{
    if checks::no_family(g.family) {
        return Line::R { number: 1 };
    }
    kept.registers = g;
    Line::K
}

// Kind 09: a store, unless it lies outside the longs or is not aligned.
fn store(longs: &mut [u32], address: u32, value: u32) -> Line
    ensures { StoredIn longs.old address value result longs.new }
{
    if address % 4 != 0 {
        return Line::R { number: 2 };
    }
    let i = (address / 4) as usize;
    if longs.len() <= i {
        return Line::R { number: 2 };
    }
    longs[i] = value;
    Line::K
}

// Kind 0A: a range is kept, unless it is crossed or there are sixteen.
fn add_range(kept: &mut Kept, range: Range) -> Line
    ensures played { (longs c030 c040 : List ℕ) → PlayedIn (step_of (state_of kept.old longs c030 c040) (Adds range)) result kept.new longs c030 c040 }
    ensures none_crossed { any_of crossed (ranges_of kept.new) ≡ any_of crossed (ranges_of kept.old) }
{
    if range.last < range.first {
        return Line::R { number: 3 };
    }
    match kept.ranges.push(range) {
        Ok(()) => Line::K,
        Err(Full) => Line::R { number: 8 },
    }
}

// What a record that sets something prints, and what is kept after it. No setting makes a crossed range one that is kept.
pub fn set(longs: &mut [u32], kept: &mut Kept, setting: Setting) -> Line
    ensures played { (c030 c040 : List ℕ) → PlayedIn (step_of (state_of kept.old longs.old c030 c040) (setting_in setting)) result kept.new longs.new c030 c040 }
    ensures none_crossed { any_of crossed (ranges_of kept.new) ≡ any_of crossed (ranges_of kept.old) }
{
    match setting {
        Setting::Registers(g) => set_registers(kept, g),
        Setting::Long { address, value } => store(longs, address, value),
        Setting::Range(range) => add_range(kept, range),
    }
}
