// The host's calls, for C or Rust to link. The host keeps the caches' arrays, the longs and the registers as numbers, and a slice of ranges, and lends
// them in one call; it changes the caches in place and writes its answer to five numbers (`numbers` says which number means what).
#![tactic(auto)]

ghost use Rattle.std.specs.Prelude.{◌≡◌};
ghost use Rattle.definition.specs.Words.{bit_of};
ghost use Rattle.definition.specs.Cache030.{Cache030};
ghost use Rattle.definition.specs.Cache040.{Cache040};
ghost use Rattle.definition.specs.Translate.{empty_caches, translate as translate_of};
ghost use Rattle.definition.specs.Load.{load as load_of};
ghost use Rattle.definition.specs.Test.{test as test_of};
ghost use Rattle.definition.specs.Memory.{memory};
ghost use Rattle.definition.specs.Probe.{probe as probe_of};
ghost use Rattle.definition.specs.Flush.{flush_all, flush_code, flush_page, flush_frame};
ghost use Rattle.cache.specs.Atc030.{cache_of};
ghost use Rattle.cache.specs.Atc040.{cache040_of};
ghost use Rattle.cache.specs.Pair.{caches_of, pair_with};
ghost use Rattle.numbers.specs.Numbers.{registers_of, access_of, probe_numbers, TranslatedTo, LoadedTo, tested_numbers, FlushedTo};

use cache::atc030::Atc030;
use cache::atc040::Atc040;
use definition::Range;
use memory::ranges::any_crossed;
use numbers::{
    access_of, flush_number, registers_of, tell_load, tell_probe, tell_test, tell_translation,
};

// The empty caches: every number 0.
pub fn mmu_empty(c030: &mut Atc030, c040: &mut Atc040)
    ensures { caches_of c030.new c040.new ≡ empty_caches }
{
    *c030 = [0; 69];
    *c040 = [0; 128];
}

// Translate over the caches that the host keeps.
pub fn mmu_translate(
    c030: &mut Atc030,
    c040: &mut Atc040,
    longs: &[u32],
    base: u32,
    ranges: &[Range],
    registers: &[u32; 13],
    flags: u32,
    code: u32,
    address: u32,
    out: &mut [u32; 5],
)
    ensures { TranslatedTo (translate_of (registers_of registers.now) (access_of flags code address) (memory longs.now base ranges.now) (caches_of c030.old c040.old)) out.new (caches_of c030.new c040.new) }
{
    let g = registers_of(registers);
    let a = access_of(flags, code, address);
    let crossed = any_crossed(ranges);
    let o = translate::translate(c030, c040, longs, base, ranges, crossed, g, a);
    tell_translation(out, o)
}

// Load over the 68030 cache that the host keeps.
pub fn mmu_load(
    c030: &mut Atc030,
    longs: &[u32],
    base: u32,
    ranges: &[Range],
    registers: &[u32; 13],
    code: u32,
    write: bool,
    address: u32,
    out: &mut [u32; 5],
)
    ensures { (k : Cache040) → LoadedTo (load_of (registers_of registers.now) code write address (memory longs.now base ranges.now) (pair_with (cache_of c030.old) k)) out.new (cache_of c030.new) }
{
    let g = registers_of(registers);
    let crossed = any_crossed(ranges);
    let o = load::load(c030, longs, base, ranges, crossed, g, code, write, address);
    tell_load(out, o)
}

// Test: it touches no cache.
pub fn mmu_test(
    longs: &[u32],
    base: u32,
    ranges: &[Range],
    registers: &[u32; 13],
    code: u32,
    write: bool,
    level: u32,
    address: u32,
    out: &mut [u32; 5],
)
    ensures { out.new ≡ tested_numbers (test_of (registers_of registers.now) code write level address (memory longs.now base ranges.now)) }
{
    let g = registers_of(registers);
    let crossed = any_crossed(ranges);
    let o = test::test(longs, base, ranges, crossed, g, code, write, level, address);
    tell_test(out, o)
}

// Probe: the CPU's own state, instruction and write in the flags.
pub fn mmu_probe(
    c030: &Atc030,
    c040: &Atc040,
    registers: &[u32; 13],
    flags: u32,
    address: u32,
    out: &mut [u32; 5],
)
    ensures { out.new ≡ probe_numbers (probe_of (registers_of registers.now) (bit_of flags 3) (bit_of flags 2) (bit_of flags 0) address (caches_of c030.now c040.now)) }
{
    let g = registers_of(registers);
    let own = memory::bits::bit(flags, 3);
    let instruction = memory::bits::bit(flags, 2);
    let write = memory::bits::bit(flags, 0);
    let answer = probe::probe(c030, c040, g, own, instruction, write, address);
    tell_probe(out, answer)
}

// Empties both caches.
pub fn mmu_flush_all(c030: &mut Atc030, c040: &mut Atc040) -> u32
    ensures { FlushedTo (flush_all (caches_of c030.old c040.old)) result (caches_of c030.new c040.new) }
{
    let f = flush::flush_all_in(c030, c040);
    flush_number(f)
}

// Drops the 68030 entries whose code agrees on the mask's bits.
pub fn mmu_flush_code(c030: &mut Atc030, code: u32, mask: u32) -> u32
    ensures { (k : Cache040) → FlushedTo (flush_code code mask (pair_with (cache_of c030.old) k)) result (pair_with (cache_of c030.new) k) }
{
    let f = flush::flush_code_in(c030, code, mask);
    flush_number(f)
}

// Drops those of them whose page is the address's.
pub fn mmu_flush_page(c030: &mut Atc030, code: u32, mask: u32, address: u32) -> u32
    ensures { (k : Cache040) → FlushedTo (flush_page code mask address (pair_with (cache_of c030.old) k)) result (pair_with (cache_of c030.new) k) }
{
    let f = flush::flush_page_in(c030, code, mask, address);
    flush_number(f)
}

// Drops a 68040 frame for either privilege.
pub fn mmu_flush_frame(c040: &mut Atc040, frame: u32) -> u32
    ensures { (c : Cache030) → FlushedTo (flush_frame frame (pair_with c (cache040_of c040.old))) result (pair_with c (cache040_of c040.new)) }
{
    let f = flush::flush_frame_in(c040, frame);
    flush_number(f)
}
