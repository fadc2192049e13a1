// Probe in place: 'answers from a transparent match or an unrecorded hit, else nothing; off, nothing. It uses the CPU's own state as supervisor and no override.'
#![tactic(auto)]

ghost use Rattle.std.specs.Prelude.{◌≡◌, ℕ, ◌<◌};
ghost use Rattle.definition.specs.Walk030.{shift_of};
ghost use Rattle.definition.specs.Translate.{hit_address, joined};
ghost use Rattle.definition.specs.Probe.{probe030, probe040, probe_in_order, probe as probe_of};
ghost use Rattle.cache.specs.Atc030.{cache_of};
ghost use Rattle.cache.specs.Atc040.{cache040_of};
ghost use Rattle.cache.specs.Pair.{caches_of};

use cache::atc030::Atc030;
use cache::atc040::Atc040;
use cache::{atc030, atc040};
use definition::{Probe, Registers};

// The 68030 cache, where there is a page shift.
fn probe_030(c030: &Atc030, tc: u32, code: u32, write: bool, address: u32) -> Probe
    requires { code < 8 }
    ensures { result ≡ probe030 (cache_of c030.now) code write address (shift_of tc) }
{
    match memory::page030::page_shift(tc) {
        None => Probe::Nothing,
        Some(shift) => {
            let page = address >> shift;
            match atc030::probe(c030, code, page, shift, write) {
                Some(base) => Probe::Address(memory::page030::hit_address(base, address, shift)),
                None => Probe::Nothing,
            }
        }
    }
}

// The 68040 cache.
fn probe_040(c040: &Atc040, g: Registers, own: bool, write: bool, address: u32) -> Probe
    ensures { result ≡ probe040 g (cache040_of c040.now) own write address }
{
    let tc = g.tc;
    let bits = memory::page040::page_bits(tc);
    let frame = address >> bits;
    match atc040::look_040(c040, frame, own, write) {
        Some(base) => Probe::Address(memory::page040::joined_040(tc, base, address)),
        None => Probe::Nothing,
    }
}

// The transparent registers before either cache.
fn probe_in_order(
    c030: &Atc030,
    c040: &Atc040,
    g: Registers,
    own: bool,
    instruction: bool,
    write: bool,
    address: u32,
) -> Probe
    ensures { result ≡ probe_in_order g own instruction write address (caches_of c030.now c040.now) }
{
    if !checks::is_on(g) {
        return Probe::Nothing;
    }
    let code = checks::code_of(own, instruction);
    if transparent::is_transparent(g, address, code, instruction, write) {
        return Probe::Address(address);
    }
    if g.family == 30 {
        return probe_030(c030, g.tc, code, write, address);
    }
    probe_040(c040, g, own, write, address)
}

// Probe over caches that the caller keeps.
pub fn probe(
    c030: &Atc030,
    c040: &Atc040,
    g: Registers,
    own: bool,
    instruction: bool,
    write: bool,
    address: u32,
) -> Probe
    ensures { result ≡ probe_of g own instruction write address (caches_of c030.now c040.now) }
{
    let one = checks::no_family(g.family);
    let four = atc030::bad_cache(c030);
    let n = checks::first_refusal(one, false, false, false, false, four);
    if n == 0 {
        return probe_in_order(c030, c040, g, own, instruction, write, address);
    }
    Probe::Refused(n)
}
