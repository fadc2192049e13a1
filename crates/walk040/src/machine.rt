// Where a 68040 walk stands before a long, and what the long decides.
ghost use Rattle.std.specs.Prelude.{◌≡◌, ◌||◌, ◌+◌, ◌<◌};
ghost use Rattle.definition.specs.Walk040.{page_at, pointer_at};
ghost use Rattle.definition.specs.Words.{bit_of};
ghost use Rattle.walk040.specs.Machine.{answered040, begin040, invalid040, missing040, next040, onward040, page040};

use crate::Walked040;
use definition::{End040, FaultCause};
use memory::bits::bit;
use memory::descriptor::{entry, target_of};

// What a long of a 68040 walk is: an entry of one of the three tables, or the target of an indirect one.
#[derive(Clone, Copy)]
enum Level {
    Root,
    Pointer,
    Page,
    Target,
}

// Where a 68040 walk stands before a long: the one at `at` is next, `wp` is W of the levels above it, `asked` the number of those before it.
#[derive(Clone, Copy)]
pub struct Walking040 {
    level: Level,
    wp: bool,
    at: u32,
    asked: u32,
}

// Table & FFFFFE00, index 24:18.
fn pointer_at(root: u32, address: u32) -> u32
    ensures { result ≡ pointer_at root address }
{
    entry(root - root % 512, (address >> 18) % 128, false)
}

// Page table & FFFFFF00 with 17:12, or with TC bit 14 & FFFFFF80 with 17:13.
fn page_at(tc: u32, pointer: u32, address: u32) -> u32
    ensures { result ≡ page_at tc pointer address }
{
    if bit(tc, 14) {
        return entry(pointer - pointer % 128, (address >> 13) % 32, false);
    }
    entry(pointer - pointer % 256, (address >> 12) % 64, false)
}

// A long of this level is asked for next.
fn onward(level: Level, wp: bool, at: u32, asked: u32) -> Walking040
    ensures { result ≡ onward040 level wp at asked }
{
    Walking040 {
        level,
        wp,
        at,
        asked,
    }
}

// The root table's entry is the first long asked for.
pub fn begin(at: u32) -> Walking040
    ensures { result ≡ begin040 at }
{
    onward(Level::Root, false, at, 0)
}

// Where the next long stands.
pub fn wanted(s: Walking040) -> u32
    ensures { result ≡ s.at }
{
    s.at
}

// Types 0 and 1 of the tables above a page table are invalid, and type 0 of a page.
pub fn is_invalid(s: Walking040, x: u32) -> bool
    ensures { result ≡ invalid040 s.level x }
{
    let level = s.level;
    match level {
        Level::Root => match x % 4 {
            0..=1 => true,
            _ => false,
        },
        Level::Pointer => match x % 4 {
            0..=1 => true,
            _ => false,
        },
        Level::Page => x % 4 == 0,
        Level::Target => x % 4 == 0,
    }
}

// What an invalid long of the level is called.
pub fn missing(s: Walking040) -> FaultCause
    ensures { result ≡ missing040 s.level }
{
    let level = s.level;
    match level {
        Level::Root => FaultCause::PointerA,
        Level::Pointer => FaultCause::PointerB,
        Level::Page => FaultCause::PageFault,
        Level::Target => FaultCause::Indirect,
    }
}

// A page table has pages, and indirect ones by type 2. The target of one is a page.
pub fn is_page(s: Walking040, x: u32) -> bool
    ensures { result ≡ page040 s.level x }
{
    let level = s.level;
    match level {
        Level::Root => false,
        Level::Pointer => false,
        Level::Page => x % 4 != 2,
        Level::Target => true,
    }
}

// W is bit 2 of any of the three, the target in place of the indirect one.
pub fn w_with(s: Walking040, page: u32) -> bool
    ensures { result ≡ (s.wp || bit_of page 2) }
{
    let w = bit(page, 2);
    s.wp | w
}

// S is bit 7 of the page.
pub fn s_of(page: u32) -> bool
    ensures { result ≡ bit_of page 7 }
{
    bit(page, 7)
}

// Where the long leads: to the next table, or to the target at & FFFFFFFC, which is fetched once.
#[tactic(auto, unfolding(crate::specs::Machine::next040))]
pub fn next(s: Walking040, tc: u32, address: u32, x: u32) -> Walking040
    requires { s.asked < 1000 }
    ensures { result ≡ next040 tc address s.level s.wp x (s.asked + 1) }
{
    let w = bit(x, 2);
    let asked = s.asked + 1;
    let level = s.level;
    match level {
        Level::Root => onward(Level::Pointer, s.wp | w, pointer_at(x, address), asked),
        Level::Pointer => onward(Level::Page, s.wp | w, page_at(tc, x, address), asked),
        Level::Page => onward(Level::Target, s.wp, target_of(x), asked),
        Level::Target => onward(Level::Target, s.wp, target_of(x), asked),
    }
}

// How the walk ended at this long, with the number of longs asked for.
pub fn answer(s: Walking040, end: End040) -> Walked040
    requires { s.asked < 1000 }
    ensures { result ≡ answered040 s end }
{
    Walked040 {
        end,
        asked: s.asked + 1,
    }
}
