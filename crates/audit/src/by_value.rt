// The audit and the finding over a pair of caches by value.
ghost use Rattle.std.specs.Prelude.{◌≡◌};
ghost use Rattle.definition.specs.Memory.{memory};
ghost use Rattle.definition.specs.Audit.{audit_from, finding as finding_of};
ghost use Rattle.cache.specs.Atc030.{cache_of};
ghost use Rattle.cache.specs.Pair.{pair_of};
ghost use Rattle.audit.specs.Machine.{audit_refusal, audit_begin, Begun, cached_at, LooksAt};

use crate::telling::{access_for, bare, no_caches, told};
use crate::walking::walk_for;
use crate::{
    Auditing, Cached, address_for, answer_of, begin, is_over, looked_at, next_at, refusal, said,
    took, way_for,
};
use cache::CachePair;
use definition::{Audit, Finding, Range, Registers};
use mmu::by_value;

// Where an audit of this pair begins.
fn begin_in(caches: CachePair, two: bool, three: bool, g: Registers, from: u32) -> Auditing
    ensures { Begun (audit_begin g two three (cache_of caches.c030) from) result caches.c030 caches.c040 }
{
    let c030 = caches.c030;
    let c040 = caches.c040;
    begin(&c030, &c040, two, three, g, from)
}

// What the pair's cache of the family has at i.
fn looked_in(caches: CachePair, g: Registers, i: u32) -> Cached
    ensures { LooksAt g caches.c030 caches.c040 i result }
{
    let c030 = caches.c030;
    let c040 = caches.c040;
    looked_at(&c030, &c040, g, i)
}

// The same of the entry that is next.
fn next_in(caches: CachePair, g: Registers, s: Auditing) -> Cached
    ensures { result ≡ cached_at g caches.c030 caches.c040 s.i }
{
    let c030 = caches.c030;
    let c040 = caches.c040;
    next_at(&c030, &c040, g, s)
}

// The number of the refusal, and 0 where none is.
fn refusal_in(caches: CachePair, two: bool, three: bool, g: Registers) -> u32
    ensures { result ≡ audit_refusal g two three (cache_of caches.c030) }
{
    let c030 = caches.c030;
    refusal(&c030, two, three, g)
}

// The first stale entry at `from` or above.
pub fn audit(
    longs: &[u32],
    base: u32,
    ranges: &[Range],
    g: Registers,
    caches: CachePair,
    from: u32,
) -> Audit
    ensures { result ≡ audit_from g (memory longs.now base ranges.now) (pair_of caches) from }
{
    let two = checks::bad_longs(longs, base);
    let three = memory::ranges::any_crossed(ranges);
    let mut s = begin_in(caches, two, three, g, from);
    let answer = loop {
        if is_over(s) {
            break answer_of(s);
        }
        let x = next_in(caches, g, s);
        let address = address_for(g, x);
        let way = way_for(g, x);
        let walks = walk_for(longs, base, ranges, g, address, way);
        s = took(g, s, x, address, walks);
    };
    said(answer)
}

// What is said of entry i of the family's cache.
pub fn finding(
    longs: &[u32],
    base: u32,
    ranges: &[Range],
    g: Registers,
    caches: CachePair,
    i: u32,
    write: bool,
) -> Finding
    ensures { result ≡ finding_of g (memory longs.now base ranges.now) (pair_of caches) i write }
{
    let two = checks::bad_longs(longs, base);
    let three = memory::ranges::any_crossed(ranges);
    let n = refusal_in(caches, two, three, g);
    let x = looked_in(caches, g, i);
    let a = access_for(g, x, write);
    let plain = bare(g);
    let empty = no_caches();
    let t = by_value::translate(longs, base, ranges, plain, a, empty);
    told(g, x, write, n, t)
}
