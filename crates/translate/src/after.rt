// What a walk's end gives an access: the answer, its count, and what is cached.
ghost use Rattle.std.specs.Prelude.{◌≡◌};
ghost use Rattle.cache.specs.Atc030.{cache_of};
ghost use Rattle.cache.specs.Atc040.{cache040_of};
ghost use Rattle.cache.specs.Pair.{caches_of};
ghost use Rattle.translate.specs.Stages.{resident040, end040, concluded_of};
ghost use Rattle.translate.specs.InPlace.{Ended040, Gave030, Gave040, AnsweredIn};

use crate::{Found, Outcome};
use cache::atc030::Atc030;
use cache::atc040::{Atc040, insert_040};
use definition::{Access, End040, FaultCause, Registers, Translation};
use walk030::Walked;
use walk040::Walked040;

// A write with W faults first, then user with S. Only a permitted access is cached.
fn resident(
    c040: &mut Atc040,
    tc: u32,
    address: u32,
    supervisor: bool,
    write: bool,
    field: u32,
    wp: bool,
    sup: bool,
) -> Translation
    ensures { Ended040 (resident040 tc (cache040_of c040.old) address supervisor write field wp sup) result c040.new }
{
    if write & wp {
        return search::fault(FaultCause::WriteProtect, address);
    }
    if !supervisor & sup {
        return search::fault(FaultCause::SupervisorProtect, address);
    }
    let bits = memory::page040::page_bits(tc);
    let frame = address >> bits;
    let base = memory::page040::frame_base(tc, field);
    insert_040(c040, frame, supervisor, base, wp, sup);
    Translation::Address(memory::page040::physical_040(tc, field, address))
}

// What a 68040 walk's end gives.
fn end_040(
    c040: &mut Atc040,
    tc: u32,
    address: u32,
    supervisor: bool,
    write: bool,
    end: End040,
) -> Translation
    ensures { Ended040 (end040 tc (cache040_of c040.old) address supervisor write end) result c040.new }
{
    match end {
        End040::Resident { field, wp, sup } => resident(
            c040, tc, address, supervisor, write, field, wp, sup,
        ),
        End040::Absent(cause) => search::fault(cause, address),
        End040::Lost { at } => search::bus_fault(at),
    }
}

// What a 68030 walk gives, and the longs that it asked for. A code has three bits.
fn by_030(c030: &mut Atc030, g: Registers, code: u32, a: Access, w: Walked) -> Outcome
    ensures { Gave030 g a (cache_of c030.old) code w result.answer result.count c030.new }
{
    let answer = search::end_030(c030, g.tc, code, a.address, a.write, w);
    Outcome {
        answer,
        count: w.asked,
    }
}

// What a 68040 walk gives, and the longs that it asked for.
fn by_040(c040: &mut Atc040, g: Registers, supervisor: bool, a: Access, w: Walked040) -> Outcome
    ensures { Gave040 g a (cache040_of c040.old) supervisor w result.answer result.count c040.new }
{
    let end = w.end;
    let answer = end_040(c040, g.tc, a.address, supervisor, a.write, end);
    Outcome {
        answer,
        count: w.asked,
    }
}

// The answer, its count and the next caches.
pub fn concluded(
    c030: &mut Atc030,
    c040: &mut Atc040,
    g: Registers,
    a: Access,
    found: Found,
) -> Outcome
    ensures { AnsweredIn (concluded_of g a (caches_of c030.old c040.old) found) result.answer result.count c030.new c040.new }
{
    match found {
        Found::Settled(answer) => Outcome { answer, count: 0 },
        Found::By030 { code, walk } => by_030(c030, g, code, a, walk),
        Found::By040 { supervisor, walk } => by_040(c040, g, supervisor, a, walk),
    }
}
