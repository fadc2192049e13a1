// The host's calls of the audit, for C or Rust to link: a library of their own. What the tables say of an entry is a translation, and a second
// caller of it in the library of the calls would take `mmu_translate` apart (docs/DECISIONS.md).
#![tactic(auto)]

ghost use Rattle.std.specs.Prelude.{◌≡◌};
ghost use Rattle.definition.specs.Memory.{memory};
ghost use Rattle.definition.specs.Audit.{audit_from, finding as finding_of};
ghost use Rattle.cache.specs.Pair.{caches_of};
ghost use Rattle.numbers.specs.Numbers.{registers_of, audit_numbers, finding_numbers};

use audit::finding;
use cache::atc030::Atc030;
use cache::atc040::Atc040;
use definition::Range;
use numbers::{registers_of, tell_audit, tell_finding};

// The first stale entry at `from` or above. It changes nothing.
pub fn mmu_audit(
    c030: &Atc030,
    c040: &Atc040,
    longs: &[u32],
    base: u32,
    ranges: &[Range],
    registers: &[u32; 13],
    from: u32,
    out: &mut [u32; 5],
)
    ensures { out.new ≡ audit_numbers (audit_from (registers_of registers.now) (memory longs.now base ranges.now) (caches_of c030.now c040.now) from) }
{
    let g = registers_of(registers);
    let a = audit::audit_lent(c030, c040, longs, base, ranges, g, from);
    tell_audit(out, a)
}

// What is said of entry `index` of the family's cache, for a read or a write.
pub fn mmu_finding(
    c030: &Atc030,
    c040: &Atc040,
    longs: &[u32],
    base: u32,
    ranges: &[Range],
    registers: &[u32; 13],
    index: u32,
    write: bool,
    out: &mut [u32; 10],
)
    ensures { out.new ≡ finding_numbers (finding_of (registers_of registers.now) (memory longs.now base ranges.now) (caches_of c030.now c040.now) index write) }
{
    let g = registers_of(registers);
    let f = finding::finding_lent(c030, c040, longs, base, ranges, g, index, write);
    tell_finding(out, f)
}
