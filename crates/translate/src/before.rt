// The plan of an access: the refusals, the transparent registers, the cache, and the walk to make where none of them answers.
ghost use Rattle.std.specs.Prelude.{◌≡◌, ◌/◌, ◌%◌, ◌^◌};
ghost use Rattle.definition.specs.Walk030.{shift_of};
ghost use Rattle.definition.specs.Walk040.{page_bits};
ghost use Rattle.definition.specs.Cache040.{hit040};
ghost use Rattle.cache.specs.Atc030.{cache_of};
ghost use Rattle.cache.specs.Atc040.{cache040_of};
ghost use Rattle.cache.specs.Pair.{caches_of, SizedAll};
ghost use Rattle.translate.specs.Stages.{settled_at, look_plan, plan030, look_plan040, plan_on, plan_access};
ghost use Rattle.translate.specs.InPlace.{PlannedIn030, PlannedIn};

use crate::Plan;
use cache::atc030::{Atc030, bad_cache, look};
use cache::atc040::{Atc040, look_040};
use definition::{Access, Registers, Translation};

// The answer is an address, and no table is asked.
fn at_address(address: u32) -> Plan
    ensures { result ≡ settled_at address }
{
    Plan::Settled(Translation::Address(address))
}

// By what the look gave: a hit adds the address's low page-shift bits.
fn looked(hit: Option<u64>, code: u32, address: u32, shift: u32) -> Plan
    ensures { result ≡ look_plan code address shift hit }
{
    match hit {
        Some(base) => at_address(memory::page030::hit_address(base, address, shift)),
        None => Plan::Walk030 { code },
    }
}

// The cache, where there is a page shift; else the walk.
fn plan_030(
    c030: &mut Atc030,
    tc: u32,
    code: u32,
    address: u32,
    write: bool,
    recorded: bool,
) -> Plan
    ensures { PlannedIn030 (plan030 (cache_of c030.old) recorded (code % 8) address write (shift_of tc)) result c030.new }
{
    let code = code % 8;
    match memory::page030::page_shift(tc) {
        None => Plan::Walk030 { code },
        Some(shift) => {
            let page = address >> shift;
            let hit = look(c030, code, page, shift, write, recorded);
            looked(hit, code, address, shift)
        }
    }
}

// By what the look into the 68040 cache gave: a hit joins base and low bits.
fn looked_040(hit: Option<u64>, tc: u32, address: u32, supervisor: bool) -> Plan
    ensures { result ≡ look_plan040 tc address supervisor hit }
{
    match hit {
        Some(base) => at_address(memory::page040::joined_040(tc, base, address)),
        None => Plan::Walk040 { supervisor },
    }
}

// The 68040 cache, keyed by frame and supervisor; else the walk.
fn plan_040(c040: &Atc040, tc: u32, address: u32, supervisor: bool, write: bool) -> Plan
    ensures { result ≡ look_plan040 tc address supervisor (hit040 (cache040_of c040.now) (address / 2 ^ page_bits tc) supervisor write) }
{
    let bits = memory::page040::page_bits(tc);
    let frame = address >> bits;
    let hit = look_040(c040, frame, supervisor, write);
    looked_040(hit, tc, address, supervisor)
}

// The transparent registers before either cache.
fn plan_on(c030: &mut Atc030, c040: &Atc040, g: Registers, a: Access) -> Plan
    requires { SizedAll c030.old c040.now }
    ensures { PlannedIn (plan_on g a (caches_of c030.old c040.now)) result c030.new c040.now }
{
    let compared = checks::compared_code(a);
    let instruction = checks::as_instruction(a);
    if transparent::is_transparent(g, a.address, compared, instruction, a.write) {
        return at_address(a.address);
    }
    if g.family == 30 {
        let code = checks::walk_code(a);
        return plan_030(c030, g.tc, code, a.address, a.write, a.recorded);
    }
    let supervisor = checks::as_supervisor(a);
    plan_040(c040, g.tc, a.address, supervisor, a.write)
}

// The refusals, before the test for an enabled PMMU. `two`: the base is bad; `crossed`: a range is crossed.
pub fn plan_access(
    c030: &mut Atc030,
    c040: &mut Atc040,
    two: bool,
    crossed: bool,
    g: Registers,
    a: Access,
) -> Plan
    ensures { PlannedIn (plan_access g a two crossed (caches_of c030.old c040.old)) result c030.new c040.new }
{
    let code = a.code;
    let five = checks::bad_override(code);
    let four = bad_cache(c030);
    let one = checks::no_family(g.family);
    let enabled = checks::is_on(g);
    let n = checks::first_refusal(one, false, five, two, crossed, four);
    if n != 0 {
        return Plan::Settled(Translation::Refused(n));
    }
    if !enabled {
        return at_address(a.address);
    }
    plan_on(c030, c040, g, a)
}
