// What is said of one entry, for a read or a write of its page's first byte: what the cache gives, and what the cacheless walk gives.
ghost use Rattle.std.specs.Prelude.{◌≡◌};
ghost use Rattle.definition.specs.Memory.{memory};
ghost use Rattle.definition.specs.Audit.{finding as finding_of};
ghost use Rattle.cache.specs.Pair.{caches_of};

use crate::telling::{access_for, bare, no_caches, told};
use crate::{looked_at, refusal};
use cache::atc030::Atc030;
use cache::atc040::Atc040;
use definition::{Finding, Range, Registers};
use mmu::by_value;

// What is said of entry i of the family's cache, over the caches and the ranges that the caller lends.
pub fn finding_lent(
    c030: &Atc030,
    c040: &Atc040,
    longs: &[u32],
    base: u32,
    ranges: &[Range],
    g: Registers,
    i: u32,
    write: bool,
) -> Finding
    ensures { result ≡ finding_of g (memory longs.now base ranges.now) (caches_of c030.now c040.now) i write }
{
    let two = checks::bad_longs(longs, base);
    let three = memory::ranges::any_crossed(ranges);
    let n = refusal(c030, two, three, g);
    let x = looked_at(c030, c040, g, i);
    let a = access_for(g, x, write);
    let plain = bare(g);
    let empty = no_caches();
    let t = by_value::translate(longs, base, ranges, plain, a, empty);
    told(g, x, write, n, t)
}
