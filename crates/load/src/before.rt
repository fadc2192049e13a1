// The plan of a load: the refusals; then the page is dropped, and the walk is made unless it stops.
ghost use Rattle.std.specs.Prelude.{◌≡◌};
ghost use Rattle.definition.specs.Transparent.{transparent030};
ghost use Rattle.definition.specs.Walk030.{shift_of};
ghost use Rattle.definition.specs.Load.{stopped};
ghost use Rattle.cache.specs.Atc030.{cache_of};
ghost use Rattle.load.specs.Loaded.{load_plan, plan_load, PlannedIn};

use crate::Plan;
use cache::atc030::{Atc030, bad_cache, flush_page};
use definition::{Load, Registers};

// Whether it stops: there is no page shift, or TT0 or TT1 matches its form, of reads or of writes.
fn stops(g: Registers, address: u32, code: u32, write: bool) -> bool
    ensures { result ≡ stopped (shift_of g.tc) (transparent030 g address code write) }
{
    match memory::page030::page_shift(g.tc) {
        None => true,
        Some(_) => transparent::transparent_030(g, address, code, write),
    }
}

// The search, unless it stops.
fn search_unless(stop: bool, code: u32) -> Plan
    ensures { result ≡ load_plan stop code }
{
    if stop {
        return Plan::Settled(Load::Loaded);
    }
    Plan::Walk030 { code }
}

// The refusals; then the page is dropped. `two`: the base is bad; `crossed`: a range is crossed.
pub fn plan_load(
    c030: &mut Atc030,
    two: bool,
    crossed: bool,
    g: Registers,
    code: u32,
    write: bool,
    address: u32,
) -> Plan
    ensures { PlannedIn (plan_load g code write address two crossed (cache_of c030.old)) result c030.new }
{
    let one = checks::no_family(g.family);
    let six = checks::not_030(g.family);
    let five = checks::above_seven(code);
    let four = bad_cache(c030);
    let n = checks::first_refusal(one, six, five, two, crossed, four);
    if n != 0 {
        return Plan::Settled(Load::Refused(n));
    }
    if !checks::is_on(g) {
        return Plan::Settled(Load::Loaded);
    }
    flush_page(c030, code, 7, address);
    let stop = stops(g, address, code, write);
    search_unless(stop, code)
}
