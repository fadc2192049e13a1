// The static library of the lister's call, for C or Rust to link: the export is the call of `host_list` by its name, with its clauses.
#![tactic(auto)]

ghost use Rattle.std.specs.Prelude.{◌≡◌, length};
ghost use Rattle.definition.specs.Memory.{memory};
ghost use Rattle.definition.specs.List.{list as list_of};
ghost use Rattle.list.specs.Numbers.{pairs_of};
ghost use Rattle.numbers.specs.Numbers.{registers_of};
ghost use Rattle.host_list.specs.Numbers.{list_numbers, ListedAs};

use definition::Listed;

// The ranges that a code's tree maps from an address on, a number for each, as many as have room in `out`. The bus-error ranges are lent
// as numbers, a first and a last address each: what a slice of `Range` has in memory.
#[unsafe(no_mangle)]
pub extern "C" fn mmu_list(
    longs: &[u32],
    base: u32,
    ranges: &[u32],
    registers: &[u32; 13],
    code: u32,
    from: u32,
    out: &mut [u64],
    answer: &mut [u64; 3],
)
    ensures { ListedAs (list_of (registers_of registers.now) (memory longs.now base (pairs_of ranges.now)) code from (length out.old)) out.old out.new answer.new }
{
    host_list::mmu_list(longs, base, ranges, registers, code, from, out, answer)
}
