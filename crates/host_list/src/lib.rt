// The host's call of the lister, for C or Rust to link: a library of its own, as the audit's is, so that the calls' library has one caller
// of what they are made of.
#![tactic(auto)]

ghost use Rattle.std.specs.Prelude.{◌≡◌, length};
ghost use Rattle.definition.specs.Memory.{memory};
ghost use Rattle.definition.specs.List.{list as list_of};
ghost use Rattle.list.specs.Numbers.{pairs_of};
ghost use Rattle.numbers.specs.Numbers.{registers_of};
ghost use Rattle.host_list.specs.Numbers.{list_numbers, ListedAs};

use definition::Listed;
use numbers::registers_of;

// A list's: 0 where all are listed, 1 with the address to go on from; and how many were written.
fn tell_list(answer: &mut [u64; 3], l: Listed)
    ensures { answer.new ≡ list_numbers l }
{
    match l {
        Listed::All(count) => {
            *answer = [0, count as u64, 0];
        }
        Listed::More { count, next } => {
            *answer = [1, count as u64, next as u64];
        }
        Listed::Refused(n) => {
            *answer = [2, n as u64, 0];
        }
    }
}

// The ranges that a code's tree maps from an address on, a number for each, as many as have room in `out`. The bus-error ranges are lent
// as numbers, a first and a last address each: what a slice of `Range` has in memory.
pub fn mmu_list(
    longs: &[u32],
    base: u32,
    ranges: &[u32],
    registers: &[u32; 13],
    code: u32,
    from: u32,
    out: &mut [u64],
    answer: &mut [u64; 3],
)
    ensures { ListedAs (list_of (registers_of registers.now) (memory longs.now base (pairs_of ranges.now)) code from (length out.old)) out.old out.new answer.new }
{
    let g = registers_of(registers);
    let l = list::list(longs, base, ranges, g, code, from, out);
    tell_list(answer, l)
}
