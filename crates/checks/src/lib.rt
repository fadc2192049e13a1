// What the calls of document 01 share: the checks behind the numbers of refusal, and the codes of an access.
#![tactic(auto)]

ghost use Rattle.std.specs.Prelude.{◌≡◌, []};
ghost use Rattle.definition.specs.Memory.{memory};
ghost use Rattle.definition.specs.Registers.{on, code_of, supervisor_by, instruction_by, compared_by, as_supervisor, as_instruction, walk_code, compared_code};
ghost use Rattle.definition.specs.Refusal.{no_family, bad_base, not030, above_seven, bad_override, bad_frame, refusal_of};
ghost use Rattle.checks.specs.Given.{checks_of};

use definition::{Access, Range, Registers};
use memory::tables::Tables;

// 1: the family is not 30, 40 or 60.
pub fn no_family(family: u32) -> bool
    ensures { result ≡ no_family family }
{
    !((family == 30) | (family == 40) | (family == 60))
}

// 2: the base is bad for these longs, whatever the ranges.
pub fn bad_longs(longs: &[u32], base: u32) -> bool
    ensures { result ≡ bad_base (memory longs.now base []) }
{
    let ranges: &[Range] = &[];
    let tables = Tables {
        longs,
        base,
        ranges,
    };
    tables.is_bad_base()
}

// 6: PLOAD or PTEST on family 40 or 60.
pub fn not_030(family: u32) -> bool
    ensures { result ≡ not030 family }
{
    (family == 40) | (family == 60)
}

// 5: a code, mask or level above 7.
pub fn above_seven(n: u32) -> bool
    ensures { result ≡ above_seven n }
{
    7 < n
}

// 5: an override above 7.
pub fn bad_override(code: Option<u32>) -> bool
    ensures { result ≡ bad_override code }
{
    match code {
        None => false,
        Some(n) => 7 < n,
    }
}

// 5: a 68040 page frame of 2^20 or more.
pub fn bad_frame(frame: u32) -> bool
    ensures { result ≡ bad_frame frame }
{
    0x10_0000 <= frame
}

// The first that applies in the order 1, 6, 5, 2, 3, 4; 0 where none does.
#[tactic(auto, unfolding(definition::specs::Refusal::refusal_of))]
pub fn first_refusal(one: bool, six: bool, five: bool, two: bool, three: bool, four: bool) -> u32
    ensures { result ≡ refusal_of (checks_of one six five two three four) }
{
    if one {
        return 1;
    }
    if six {
        return 6;
    }
    if five {
        return 5;
    }
    if two {
        return 2;
    }
    if three {
        return 3;
    }
    if four {
        return 4;
    }
    0
}

// An access's address.
pub fn address_of(a: Access) -> u32
    ensures { result ≡ a.address }
{
    a.address
}

// Whether there is a PMMU and it is enabled.
pub fn is_on(g: Registers) -> bool
    ensures { result ≡ on g }
{
    g.present & g.enabled
}

// User data 1, program 2, supervisor data 5, program 6.
pub fn code_of(supervisor: bool, instruction: bool) -> u32
    ensures { result ≡ code_of supervisor instruction }
{
    if supervisor {
        if instruction {
            return 6;
        }
        return 5;
    }
    if instruction {
        return 2;
    }
    1
}

// An override replaces supervisor by bit 2.
pub fn supervisor_by(code: Option<u32>, supervisor: bool) -> bool
    ensures { result ≡ supervisor_by code supervisor }
{
    match code {
        None => supervisor,
        Some(n) => (n >> 2) % 2 == 1,
    }
}

// And instruction by 'low two bits are 2'.
fn instruction_by(code: Option<u32>, instruction: bool) -> bool
    ensures { result ≡ instruction_by code instruction }
{
    match code {
        None => instruction,
        Some(n) => n % 4 == 2,
    }
}

// Supervisor, as the translation takes it.
pub fn as_supervisor(a: Access) -> bool
    ensures { result ≡ as_supervisor a }
{
    let code = a.code;
    supervisor_by(code, a.supervisor)
}

// Instruction, as the translation takes it.
pub fn as_instruction(a: Access) -> bool
    ensures { result ≡ as_instruction a }
{
    let code = a.code;
    instruction_by(code, a.instruction)
}

// The walk's code: 1, 2, 5 or 6.
pub fn walk_code(a: Access) -> u32
    ensures { result ≡ walk_code a }
{
    code_of(as_supervisor(a), as_instruction(a))
}

// The code that a transparent register is compared with: the override, else from the CPU's own state.
pub fn compared_code(a: Access) -> u32
    ensures { result ≡ compared_code a }
{
    let code = a.code;
    match code {
        None => code_of(a.own, a.instruction),
        Some(n) => n,
    }
}
