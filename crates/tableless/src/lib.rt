// The calls of document 01 by value that read no tables: probe and the four flushes.
// Each copies the pair's arrays, lends them to a function in place and builds the pair anew.
#![tactic(auto)]

ghost use Rattle.std.specs.Prelude.{◌≡◌};
ghost use Rattle.definition.specs.Probe.{probe as probe_of};
ghost use Rattle.definition.specs.Flush.{flush_all, flush_code, flush_page, flush_frame};
ghost use Rattle.cache.specs.Pair.{pair_of};
ghost use Rattle.tableless.specs.ByValue.{FlushedBy};

use cache::CachePair;
use definition::{Flush, Probe, Registers};

// An answer and the next caches.
#[derive(Clone, Copy)]
pub struct Flushed {
    pub answer: Flush,
    pub caches: CachePair,
}

// Probe: 'answers from a transparent match or an unrecorded hit, else nothing'.
pub fn probe(
    g: Registers,
    own: bool,
    instruction: bool,
    write: bool,
    address: u32,
    caches: CachePair,
) -> Probe
    ensures { result ≡ probe_of g own instruction write address (pair_of caches) }
{
    let c030 = caches.c030;
    let c040 = caches.c040;
    probe::probe(&c030, &c040, g, own, instruction, write, address)
}

// ---- The flushes.

// 'Empties both.'
pub fn flush_all(caches: CachePair) -> Flushed
    ensures { FlushedBy (flush_all (pair_of caches)) result }
{
    let mut c030 = caches.c030;
    let mut c040 = caches.c040;
    let answer = flush::flush_all_in(&mut c030, &mut c040);
    Flushed {
        answer,
        caches: CachePair { c030, c040 },
    }
}

// 'Drops entries whose code agrees on the mask's bits.'
pub fn flush_code(code: u32, mask: u32, caches: CachePair) -> Flushed
    ensures { FlushedBy (flush_code code mask (pair_of caches)) result }
{
    let mut c030 = caches.c030;
    let c040 = caches.c040;
    let answer = flush::flush_code_in(&mut c030, code, mask);
    Flushed {
        answer,
        caches: CachePair { c030, c040 },
    }
}

// '.. and, for a page, whose page is the address's at the stored shift.'
pub fn flush_page(code: u32, mask: u32, address: u32, caches: CachePair) -> Flushed
    ensures { FlushedBy (flush_page code mask address (pair_of caches)) result }
{
    let mut c030 = caches.c030;
    let c040 = caches.c040;
    let answer = flush::flush_page_in(&mut c030, code, mask, address);
    Flushed {
        answer,
        caches: CachePair { c030, c040 },
    }
}

// 'Drops that frame for either privilege.'
pub fn flush_frame(frame: u32, caches: CachePair) -> Flushed
    ensures { FlushedBy (flush_frame frame (pair_of caches)) result }
{
    let c030 = caches.c030;
    let mut c040 = caches.c040;
    let answer = flush::flush_frame_in(&mut c040, frame);
    Flushed {
        answer,
        caches: CachePair { c030, c040 },
    }
}
