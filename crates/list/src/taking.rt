// What the lister refuses: 1, 5, 2 and 3 as every call over tables, then 9.
ghost use Rattle.std.specs.Prelude.{◌≡◌};
ghost use Rattle.definition.specs.Walk030.{widths_of, used, sum_of};
ghost use Rattle.definition.specs.Refusal.{no_family};
ghost use Rattle.definition.specs.Audit.{is_access_code};
ghost use Rattle.definition.specs.List.{not_taken};
ghost use Rattle.list.specs.Writing.{refusal as refusal_of};

use crate::reading::Numbers;
use definition::Registers;
use memory::tables::Tables;

// The family is not 30, 40 or 60.
fn no_family(family: u32) -> bool
    ensures { result ≡ no_family family }
{
    !((family == 30) | (family == 40) | (family == 60))
}

// The codes of an access: 1, 2, 5 and 6.
fn is_access_code(code: u32) -> bool
    ensures { result ≡ is_access_code code }
{
    (code == 1) | (code == 2) | (code == 5) | (code == 6)
}

// The widths up to the first zero.
fn sum_of_levels(tc: u32) -> u32
    ensures { result ≡ sum_of (used (widths_of tc)) }
{
    let all = memory::page030::consumed(tc);
    all - (tc >> 16) % 16
}

// Another family than 30, a code of no access, IS, no level or levels that don't fit an address, or a root of type 0 or 1.
fn not_taken(g: Registers, code: u32) -> bool
    ensures { result ≡ not_taken g code }
{
    let known = is_access_code(code);
    let sum = sum_of_levels(g.tc);
    let root = walk030::root_of(g, code);
    (g.family != 30)
        | !known
        | ((g.tc >> 16) % 16 != 0)
        | (sum == 0)
        | (32 < sum)
        | (root.limit % 4 < 2)
}

// The number of the first that applies, and 0 where none does.
pub fn refusal(tables: &Tables<Numbers>, g: Registers, code: u32) -> u32
    ensures { result ≡ refusal_of g tables.now code }
{
    if no_family(g.family) {
        return 1;
    }
    if 7 < code {
        return 5;
    }
    if tables.is_bad_base() {
        return 2;
    }
    if tables.is_crossed() {
        return 3;
    }
    if not_taken(g, code) {
        return 9;
    }
    0
}
