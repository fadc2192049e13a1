// The four flushes of document 01 in place, over arrays that the caller keeps: all of both caches, by code and mask, by code, mask and page, and a 68040 frame.
#![tactic(auto)]

ghost use Rattle.definition.specs.Cache030.{Cache030};
ghost use Rattle.definition.specs.Cache040.{Cache040};
ghost use Rattle.definition.specs.Flush.{flush_all, flush_code, flush_page, flush_frame};
ghost use Rattle.cache.specs.Atc030.{cache_of};
ghost use Rattle.cache.specs.Atc040.{cache040_of};
ghost use Rattle.cache.specs.Pair.{caches_of, pair_with};
ghost use Rattle.flush.specs.Flushed.{FlushedIn, FlushedIn030, FlushedIn040};

use cache::atc030::Atc030;
use cache::atc040::Atc040;
use cache::{atc030, atc040};
use definition::Flush;

// Empties both caches that the caller keeps.
pub fn flush_all_in(c030: &mut Atc030, c040: &mut Atc040) -> Flush
    ensures { FlushedIn (flush_all (caches_of c030.old c040.old)) result c030.new c040.new }
{
    let four = atc030::bad_cache(c030);
    let n = checks::first_refusal(false, false, false, false, false, four);
    if n != 0 {
        return Flush::Refused(n);
    }
    atc030::flush_all(c030);
    atc040::flush_all_040(c040);
    Flush::Flushed
}

// Drops the entries whose code agrees on the mask's bits.
pub fn flush_code_in(c030: &mut Atc030, code: u32, mask: u32) -> Flush
    ensures { (k : Cache040) → FlushedIn030 (flush_code code mask (pair_with (cache_of c030.old) k)) k result c030.new }
{
    let four = atc030::bad_cache(c030);
    let n = checks::first_refusal(false, false, (7 < code) | (7 < mask), false, false, four);
    if n != 0 {
        return Flush::Refused(n);
    }
    atc030::flush_code(c030, code, mask);
    Flush::Flushed
}

// Drops those of them whose page is the address's.
pub fn flush_page_in(c030: &mut Atc030, code: u32, mask: u32, address: u32) -> Flush
    ensures { (k : Cache040) → FlushedIn030 (flush_page code mask address (pair_with (cache_of c030.old) k)) k result c030.new }
{
    let four = atc030::bad_cache(c030);
    let n = checks::first_refusal(false, false, (7 < code) | (7 < mask), false, false, four);
    if n != 0 {
        return Flush::Refused(n);
    }
    atc030::flush_page(c030, code, mask, address);
    Flush::Flushed
}

// Drops a 68040 frame for either privilege.
pub fn flush_frame_in(c040: &mut Atc040, frame: u32) -> Flush
    ensures { (c : Cache030) → FlushedIn040 (flush_frame frame (pair_with c (cache040_of c040.old))) c result c040.new }
{
    let n = checks::first_refusal(false, false, checks::bad_frame(frame), false, false, false);
    if n != 0 {
        return Flush::Refused(n);
    }
    atc040::flush_frame(c040, frame);
    Flush::Flushed
}
