// The static library of the audit's calls, for C or Rust to link: each export is the call of `host_audit` by its name, with its clauses.
#![tactic(auto)]

ghost use Rattle.std.specs.Prelude.{◌≡◌};
ghost use Rattle.definition.specs.Memory.{memory};
ghost use Rattle.definition.specs.Audit.{audit_from, finding as finding_of};
ghost use Rattle.cache.specs.Pair.{caches_of};
ghost use Rattle.numbers.specs.Numbers.{registers_of, audit_numbers, finding_numbers};

use cache::atc030::Atc030;
use cache::atc040::Atc040;
use definition::Range;

// The first stale entry at `from` or above. It changes nothing.
#[unsafe(no_mangle)]
pub extern "C" fn mmu_audit(
    c030: &Atc030,
    c040: &Atc040,
    longs: &[u32],
    base: u32,
    ranges: &[Range],
    registers: &[u32; 13],
    from: u32,
    out: &mut [u32; 5],
)
    ensures { out.new ≡ audit_numbers (audit_from (registers_of registers.now) (memory longs.now base ranges.now) (caches_of c030.now c040.now) from) }
{
    host_audit::mmu_audit(c030, c040, longs, base, ranges, registers, from, out)
}

// What is said of entry `index` of the family's cache, for a read or a write.
#[unsafe(no_mangle)]
pub extern "C" fn mmu_finding(
    c030: &Atc030,
    c040: &Atc040,
    longs: &[u32],
    base: u32,
    ranges: &[Range],
    registers: &[u32; 13],
    index: u32,
    write: bool,
    out: &mut [u32; 10],
)
    ensures { out.new ≡ finding_numbers (finding_of (registers_of registers.now) (memory longs.now base ranges.now) (caches_of c030.now c040.now) index write) }
{
    host_audit::mmu_finding(
        c030, c040, longs, base, ranges, registers, index, write, out,
    )
}
