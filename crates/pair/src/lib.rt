// Document 01's form for a host: 'the host keeps one pair of caches and has it changed in place, by a few thin functions' above
// the calls by value. The door that a host links is `host`.
// Each takes what lies behind the `&mut`, calls, and puts the next pair there.
#![tactic(auto)]

ghost use Rattle.std.specs.Prelude.{◌≡◌};
ghost use Rattle.definition.specs.Memory.{memory};
ghost use Rattle.definition.specs.Translate.{translate as translate_of};
ghost use Rattle.definition.specs.Load.{load as load_of};
ghost use Rattle.definition.specs.Flush.{flush_all, flush_code, flush_page, flush_frame};
ghost use Rattle.cache.specs.Pair.{pair_of};
ghost use Rattle.tableless.specs.ByValue.{FlushedBy, flushed_with};
ghost use Rattle.mmu.specs.ByValue.{TranslatedBy, translated_with, LoadedBy, loaded_with};

use cache::CachePair;
use definition::{Access, Flush, Range, Registers};
use load::LoadOutcome;
use mmu::by_value;
use mmu::by_value::{Loaded, Translated};
use tableless::Flushed;
use translate::Outcome;

// ---- The parts of what a call by value gives: the next caches, and the rest.

fn translated_caches(t: Translated) -> CachePair
    ensures { result ≡ t.caches }
{
    t.caches
}

fn translated_outcome(t: Translated) -> Outcome
    ensures { (result.answer ≡ t.answer) × (result.count ≡ t.count) }
{
    let answer = t.answer;
    Outcome {
        answer,
        count: t.count,
    }
}

fn loaded_caches(l: Loaded) -> CachePair
    ensures { result ≡ l.caches }
{
    l.caches
}

fn loaded_outcome(l: Loaded) -> LoadOutcome
    ensures { (result.answer ≡ l.answer) × (result.count ≡ l.count) }
{
    let answer = l.answer;
    LoadOutcome {
        answer,
        count: l.count,
    }
}

fn flushed_caches(f: Flushed) -> CachePair
    ensures { result ≡ f.caches }
{
    f.caches
}

fn flushed_answer(f: Flushed) -> Flush
    ensures { result ≡ f.answer }
{
    f.answer
}

// ---- The thin functions.

// Translate over the pair that the host keeps.
pub fn translate_pair(
    p: &mut CachePair,
    longs: &[u32],
    base: u32,
    ranges: &[Range],
    g: Registers,
    a: Access,
) -> Outcome
    ensures { TranslatedBy (translate_of g a (memory longs.now base ranges.now) (pair_of p.old)) (translated_with result.answer result.count p.new) }
{
    let old = *p;
    let done = by_value::translate(longs, base, ranges, g, a, old);
    let new = translated_caches(done);
    *p = new;
    translated_outcome(done)
}

// Load over the pair that the host keeps.
pub fn load_pair(
    p: &mut CachePair,
    longs: &[u32],
    base: u32,
    ranges: &[Range],
    g: Registers,
    code: u32,
    write: bool,
    address: u32,
) -> LoadOutcome
    ensures { LoadedBy (load_of g code write address (memory longs.now base ranges.now) (pair_of p.old)) (loaded_with result.answer result.count p.new) }
{
    let old = *p;
    let done = by_value::load(longs, base, ranges, g, code, write, address, old);
    let new = loaded_caches(done);
    *p = new;
    loaded_outcome(done)
}

// Empties both caches of the pair that the host keeps.
pub fn flush_all_pair(p: &mut CachePair) -> Flush
    ensures { FlushedBy (flush_all (pair_of p.old)) (flushed_with result p.new) }
{
    let old = *p;
    let done = tableless::flush_all(old);
    let new = flushed_caches(done);
    *p = new;
    flushed_answer(done)
}

// Drops its entries whose code agrees on the mask's bits.
pub fn flush_code_pair(p: &mut CachePair, code: u32, mask: u32) -> Flush
    ensures { FlushedBy (flush_code code mask (pair_of p.old)) (flushed_with result p.new) }
{
    let old = *p;
    let done = tableless::flush_code(code, mask, old);
    let new = flushed_caches(done);
    *p = new;
    flushed_answer(done)
}

// Drops those of them whose page is the address's.
pub fn flush_page_pair(p: &mut CachePair, code: u32, mask: u32, address: u32) -> Flush
    ensures { FlushedBy (flush_page code mask address (pair_of p.old)) (flushed_with result p.new) }
{
    let old = *p;
    let done = tableless::flush_page(code, mask, address, old);
    let new = flushed_caches(done);
    *p = new;
    flushed_answer(done)
}

// Drops a 68040 frame of it for either privilege.
pub fn flush_frame_pair(p: &mut CachePair, frame: u32) -> Flush
    ensures { FlushedBy (flush_frame frame (pair_of p.old)) (flushed_with result p.new) }
{
    let old = *p;
    let done = tableless::flush_frame(frame, old);
    let new = flushed_caches(done);
    *p = new;
    flushed_answer(done)
}
