// The transparent registers: TT0 and TT1 of the 68030, ITT0, ITT1, DTT0 and DTT1 of the 68040.
#![tactic(auto)]

ghost use Rattle.std.specs.Prelude.{◌≡◌};
ghost use Rattle.definition.specs.Words.{bit_of, agrees};
ghost use Rattle.definition.specs.Transparent.{covers, directed, matches030, privilege, matches040, transparent030, transparent};
ghost use Rattle.transparent.specs.Chosen.{matches_by, either_by, first_by, second_by};

use definition::Registers;

// Whether a and b agree on the mask's bits.
fn agree(a: u32, b: u32, mask: u32) -> bool
    ensures { result ≡ agrees a b mask }
{
    (a ^ b) & mask == 0
}

// Bit 15 enables.
fn is_enabled(tt: u32) -> bool
    ensures { result ≡ bit_of tt 15 }
{
    (tt >> 15) % 2 == 1
}

// Bit 15 enables, and bits 31:24 agree with the address's but for those set in 23:16.
fn covers_address(tt: u32, address: u32) -> bool
    ensures { result ≡ covers tt address }
{
    if is_enabled(tt) {
        return agree(address >> 24, tt >> 24, 255 - (tt >> 16) % 256);
    }
    false
}

// RWM, bit 8: both directions. Where it is clear, R/W, bit 9: reads where it is set, writes where it is clear.
fn takes_direction(tt: u32, write: bool) -> bool
    ensures { result ≡ directed tt write }
{
    if (tt >> 8) % 2 == 1 {
        return true;
    }
    if (tt >> 9) % 2 == 1 {
        return !write;
    }
    write
}

// One 68030 register: it takes the direction, and the code agrees with the base in 6:4 but for the bits set in 2:0.
pub fn matches_030(tt: u32, address: u32, code: u32, write: bool) -> bool
    ensures { result ≡ matches030 tt address code write }
{
    if covers_address(tt, address) {
        if takes_direction(tt, write) {
            return agree(code, (tt >> 4) % 8, 7 - tt % 8);
        }
    }
    false
}

// The S-field: 0 matches user only, 1 supervisor only, 2 and 3 both.
fn privileged(field: u32, supervisor: bool) -> bool
    ensures { result ≡ privilege field supervisor }
{
    match field {
        0 => !supervisor,
        1 => supervisor,
        2.. => true,
    }
}

// One 68040 register.
pub fn matches_040(tt: u32, address: u32, supervisor: bool) -> bool
    ensures { result ≡ matches040 tt address supervisor }
{
    if covers_address(tt, address) {
        return privileged((tt >> 13) % 4, supervisor);
    }
    false
}

// One register of this family. Family 60 matches nothing.
fn matches(family: u32, tt: u32, address: u32, code: u32, write: bool) -> bool
    ensures { result ≡ matches_by family tt address code write }
{
    match family {
        30 => matches_030(tt, address, code, write),
        40 => matches_040(tt, address, (code >> 2) % 2 == 1),
        _ => false,
    }
}

// Either of two of them.
fn either(family: u32, first: u32, second: u32, address: u32, code: u32, write: bool) -> bool
    ensures { result ≡ either_by family first second address code write }
{
    if matches(family, first, address, code, write) {
        return true;
    }
    matches(family, second, address, code, write)
}

// TT0 or TT1.
pub fn transparent_030(g: Registers, address: u32, code: u32, write: bool) -> bool
    ensures { result ≡ transparent030 g address code write }
{
    either(30, g.tt0, g.tt1, address, code, write)
}

// The first register that an access is compared with: TT0, or ITT0 for instructions and DTT0 for data.
fn first_of(g: Registers, instruction: bool) -> u32
    ensures { result ≡ first_by g instruction }
{
    if g.family == 30 {
        return g.tt0;
    }
    if instruction {
        return g.itt0;
    }
    g.dtt0
}

// The second: TT1, or ITT1 for instructions and DTT1 for data.
fn second_of(g: Registers, instruction: bool) -> u32
    ensures { result ≡ second_by g instruction }
{
    if g.family == 30 {
        return g.tt1;
    }
    if instruction {
        return g.itt1;
    }
    g.dtt1
}

// Whether an access of this code and direction is translated to its own address. Where neither register is enabled, which is a hit's way, nothing is compared.
pub fn is_transparent(g: Registers, address: u32, code: u32, instruction: bool, write: bool) -> bool
    ensures { result ≡ transparent g address code instruction write }
{
    let first = first_of(g, instruction);
    let second = second_of(g, instruction);
    if is_enabled(first) | is_enabled(second) {
        return either(g.family, first, second, address, code, write);
    }
    false
}
