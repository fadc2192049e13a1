// The 68040 walk, also for family 60, over lent longs and lent bus-error ranges.
#![tactic(auto)]

mod machine;

ghost use Rattle.std.specs.Prelude.{◌≡◌};
ghost use Rattle.definition.specs.Walk040.{root_at, walk040, walk040_from};
ghost use Rattle.walk040.specs.Walked.{shown040};

use definition::{End040, Range, Registers};
use memory::descriptor::entry;
use memory::tables::Tables;

// How a 68040 walk ended, and the number of longs asked for.
#[derive(Clone, Copy)]
pub struct Walked040 {
    pub end: End040,
    pub asked: u32,
}

// Root SRP (supervisor) or CRP & FFFFFE00, index bits 31:25.
fn root_at(g: Registers, supervisor: bool, address: u32) -> u32
    ensures { result ≡ root_at g supervisor address }
{
    let mut root = g.crp.address;
    if supervisor {
        root = g.srp.address;
    }
    entry(root - root % 512, (address >> 25) % 128, false)
}

// The 68040 walk, also for family 60, from the root table's entry at `first`.
fn walk_040(tables: &Tables<&[Range]>, tc: u32, first: u32, address: u32) -> Walked040
    ensures { result ≡ shown040 (walk040_from tables.now tc first address) }
{
    let mut s = machine::begin(first);
    let end = loop {
        let at = machine::wanted(s);
        match tables.fetch(at) {
            None => break End040::Lost { at },
            Some(x) => {
                if machine::is_invalid(s, x) {
                    let cause = machine::missing(s);
                    break End040::Absent(cause);
                }
                if machine::is_page(s, x) {
                    let wp = machine::w_with(s, x);
                    let sup = machine::s_of(x);
                    break End040::Resident { field: x, wp, sup };
                }
                s = machine::next(s, tc, address, x);
            }
        }
    };
    machine::answer(s, end)
}

// The walk of a supervisor or a user under these registers.
#[tactic(auto, unfolding(definition::specs::Walk040::walk040))]
pub fn walk(tables: &Tables<&[Range]>, g: Registers, address: u32, supervisor: bool) -> Walked040
    ensures { result ≡ shown040 (walk040 tables.now g address supervisor) }
{
    let first = root_at(g, supervisor, address);
    walk_040(tables, g.tc, first, address)
}
