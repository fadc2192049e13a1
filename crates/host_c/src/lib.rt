// The static library of the host's calls, for C or Rust to link: each export is the call of `host` by its name, with its clauses.
#![tactic(auto)]

ghost use Rattle.std.specs.Prelude.{◌≡◌};
ghost use Rattle.definition.specs.Words.{bit_of};
ghost use Rattle.definition.specs.Cache030.{Cache030};
ghost use Rattle.definition.specs.Cache040.{Cache040};
ghost use Rattle.definition.specs.Translate.{empty_caches, translate as translate_of};
ghost use Rattle.definition.specs.Load.{load as load_of};
ghost use Rattle.definition.specs.Test.{test as test_of};
ghost use Rattle.definition.specs.Memory.{memory};
ghost use Rattle.definition.specs.Probe.{probe as probe_of};
ghost use Rattle.definition.specs.Flush.{flush_all, flush_code, flush_page, flush_frame};
ghost use Rattle.cache.specs.Atc030.{cache_of};
ghost use Rattle.cache.specs.Atc040.{cache040_of};
ghost use Rattle.cache.specs.Pair.{caches_of, pair_with};
ghost use Rattle.numbers.specs.Numbers.{registers_of, access_of, probe_numbers, TranslatedTo, LoadedTo, tested_numbers, FlushedTo};

use cache::atc030::Atc030;
use cache::atc040::Atc040;
use definition::Range;

// The empty caches: every number 0.
#[unsafe(no_mangle)]
pub extern "C" fn mmu_empty(c030: &mut Atc030, c040: &mut Atc040)
    ensures { caches_of c030.new c040.new ≡ empty_caches }
{
    host::mmu_empty(c030, c040)
}

// Translate over the caches that the host keeps.
#[unsafe(no_mangle)]
pub extern "C" fn mmu_translate(
    c030: &mut Atc030,
    c040: &mut Atc040,
    longs: &[u32],
    base: u32,
    ranges: &[Range],
    registers: &[u32; 13],
    flags: u32,
    code: u32,
    address: u32,
    out: &mut [u32; 5],
)
    ensures { TranslatedTo (translate_of (registers_of registers.now) (access_of flags code address) (memory longs.now base ranges.now) (caches_of c030.old c040.old)) out.new (caches_of c030.new c040.new) }
{
    host::mmu_translate(
        c030, c040, longs, base, ranges, registers, flags, code, address, out,
    )
}

// Load over the 68030 cache that the host keeps.
#[unsafe(no_mangle)]
pub extern "C" fn mmu_load(
    c030: &mut Atc030,
    longs: &[u32],
    base: u32,
    ranges: &[Range],
    registers: &[u32; 13],
    code: u32,
    write: bool,
    address: u32,
    out: &mut [u32; 5],
)
    ensures { (k : Cache040) → LoadedTo (load_of (registers_of registers.now) code write address (memory longs.now base ranges.now) (pair_with (cache_of c030.old) k)) out.new (cache_of c030.new) }
{
    host::mmu_load(
        c030, longs, base, ranges, registers, code, write, address, out,
    )
}

// Test: it touches no cache.
#[unsafe(no_mangle)]
pub extern "C" fn mmu_test(
    longs: &[u32],
    base: u32,
    ranges: &[Range],
    registers: &[u32; 13],
    code: u32,
    write: bool,
    level: u32,
    address: u32,
    out: &mut [u32; 5],
)
    ensures { out.new ≡ tested_numbers (test_of (registers_of registers.now) code write level address (memory longs.now base ranges.now)) }
{
    host::mmu_test(
        longs, base, ranges, registers, code, write, level, address, out,
    )
}

// Probe: the CPU's own state, instruction and write in the flags.
#[unsafe(no_mangle)]
pub extern "C" fn mmu_probe(
    c030: &Atc030,
    c040: &Atc040,
    registers: &[u32; 13],
    flags: u32,
    address: u32,
    out: &mut [u32; 5],
)
    ensures { out.new ≡ probe_numbers (probe_of (registers_of registers.now) (bit_of flags 3) (bit_of flags 2) (bit_of flags 0) address (caches_of c030.now c040.now)) }
{
    host::mmu_probe(c030, c040, registers, flags, address, out)
}

// Empties both caches.
#[unsafe(no_mangle)]
pub extern "C" fn mmu_flush_all(c030: &mut Atc030, c040: &mut Atc040) -> u32
    ensures { FlushedTo (flush_all (caches_of c030.old c040.old)) result (caches_of c030.new c040.new) }
{
    host::mmu_flush_all(c030, c040)
}

// Drops the 68030 entries whose code agrees on the mask's bits.
#[unsafe(no_mangle)]
pub extern "C" fn mmu_flush_code(c030: &mut Atc030, code: u32, mask: u32) -> u32
    ensures { (k : Cache040) → FlushedTo (flush_code code mask (pair_with (cache_of c030.old) k)) result (pair_with (cache_of c030.new) k) }
{
    host::mmu_flush_code(c030, code, mask)
}

// Drops those of them whose page is the address's.
#[unsafe(no_mangle)]
pub extern "C" fn mmu_flush_page(c030: &mut Atc030, code: u32, mask: u32, address: u32) -> u32
    ensures { (k : Cache040) → FlushedTo (flush_page code mask address (pair_with (cache_of c030.old) k)) result (pair_with (cache_of c030.new) k) }
{
    host::mmu_flush_page(c030, code, mask, address)
}

// Drops a 68040 frame for either privilege.
#[unsafe(no_mangle)]
pub extern "C" fn mmu_flush_frame(c040: &mut Atc040, frame: u32) -> u32
    ensures { (c : Cache030) → FlushedTo (flush_frame frame (pair_with c (cache040_of c040.old))) result (pair_with c (cache040_of c040.new)) }
{
    host::mmu_flush_frame(c040, frame)
}
