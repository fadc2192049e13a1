// The audit of a snapshot: whether each entry of the caches that an access can meet is what the walk of its key finds now. It changes nothing.
#![tactic(auto)]

pub mod by_value;
pub mod finding;
mod telling;
mod walking;

ghost use Rattle.std.specs.Prelude.{◌≡◌, ◌<◌, get_or};
ghost use Rattle.definition.specs.Memory.{memory};
ghost use Rattle.definition.specs.Walk030.{shift_of};
ghost use Rattle.definition.specs.Audit.{is_access_code, is_end030, is_end040, audit_from};
ghost use Rattle.cache.specs.Packed.{part};
ghost use Rattle.cache.specs.Atc030.{cache_of, entry_of};
ghost use Rattle.cache.specs.Atc040.{slot_of};
ghost use Rattle.cache.specs.Pair.{caches_of};
ghost use Rattle.audit.specs.Machine.{going_to, done_by, going_from, at_shift, audit_refusal, audit_begin, Begun, cached_at, LooksAt, way030, way040, way_for, wrapped_of, address_for, stale_by030, stale_by040, turned_of, audit_took};

use crate::walking::{Walks, Way, walk_for};
use cache::atc030;
use cache::atc030::Atc030;
use cache::atc040::Atc040;
use definition::{Audit, End, End040, Range, Registers};

// Where an audit stands between two entries: it is over with this answer, or entry `i` is next.
#[derive(Clone, Copy)]
struct Auditing {
    over: bool,
    answer: Audit,
    i: u32,
}

// Entry i is next.
fn going(i: u32) -> Auditing
    ensures { result ≡ going_to i }
{
    Auditing {
        over: false,
        answer: Audit::Clean,
        i,
    }
}

// It is over.
fn done(answer: Audit) -> Auditing
    ensures { result ≡ done_by answer }
{
    Auditing {
        over: true,
        answer,
        i: 0,
    }
}

// Entry `from` is next, if there is one.
fn going_from(from: u32, size: u32) -> Auditing
    ensures { result ≡ going_from from size }
{
    if from < size {
        return going(from);
    }
    done(Audit::Clean)
}

// The number at k, and 0 past the end.
fn number_at(list: &[u64], k: usize) -> u64
    ensures { result ≡ get_or list.now k 0 }
{
    if k < list.len() {
        return list[k];
    }
    0
}

// The i-th of the `size` numbers from `start` on, and 0 past their end.
fn part_at(list: &[u64], start: u32, size: u32, i: u32) -> u64
    ensures { result ≡ get_or (part start size list.now) i 0 }
{
    if i < size {
        return number_at(list, start as usize + i as usize);
    }
    0
}

// ---- Where it begins.

// Whether TC has the cache's shift.
fn at_shift(shift: u64, tc: u32) -> bool
    ensures { result ≡ at_shift shift (shift_of tc) }
{
    match memory::page030::page_shift(tc) {
        None => false,
        Some(s) => shift == s as u64,
    }
}

// The number of the refusal, and 0 where none is. `two`: the base is bad; `three`: a range is crossed.
fn refusal(c030: &Atc030, two: bool, three: bool, g: Registers) -> u32
    ensures { result ≡ audit_refusal g two three (cache_of c030.now) }
{
    let one = checks::no_family(g.family);
    let four = atc030::bad_cache(c030);
    checks::first_refusal(one, false, false, two, three, four)
}

// The refusals; then the 68030 at another shift has nothing to look at.
fn opened(c030: &Atc030, two: bool, three: bool, g: Registers, from: u32) -> Auditing
    ensures { result ≡ audit_begin g two three (cache_of c030.now) from }
{
    let n = refusal(c030, two, three, g);
    if n != 0 {
        return done(Audit::Refused(n));
    }
    if g.family == 30 {
        let shift = number_at(c030, 68);
        if at_shift(shift, g.tc) {
            return going_from(from, 22);
        }
        return done(Audit::Clean);
    }
    going_from(from, 64)
}

// The same, with the arrays' lengths.
fn begin(c030: &Atc030, c040: &Atc040, two: bool, three: bool, g: Registers, from: u32) -> Auditing
    ensures { Begun (audit_begin g two three (cache_of c030.now) from) result c030.now c040.now }
{
    opened(c030, two, three, g, from)
}

// ---- Entry i.

// What the family's cache has at i, a 68030 entry's tag and page, or a 68040 slot's key and base, and the shift of its page. Past the end stands the empty entry.
#[derive(Clone, Copy)]
struct Cached {
    key: u64,
    page: u64,
    shift: u64,
}

fn cached_at(c030: &Atc030, c040: &Atc040, g: Registers, i: u32) -> Cached
    ensures { result ≡ cached_at g c030.now c040.now i }
{
    if g.family == 30 {
        let key = part_at(c030, 0, 22, i);
        let page = part_at(c030, 22, 22, i);
        let shift = number_at(c030, 68);
        return Cached { key, page, shift };
    }
    let key = part_at(c040, 0, 64, i);
    let page = part_at(c040, 64, 64, i);
    let bits = memory::page040::page_bits(g.tc);
    Cached {
        key,
        page,
        shift: bits as u64,
    }
}

// The same, with the arrays' lengths.
fn looked_at(c030: &Atc030, c040: &Atc040, g: Registers, i: u32) -> Cached
    ensures { LooksAt g c030.now c040.now i result }
{
    cached_at(c030, c040, g, i)
}

// What stands at the entry that is next.
fn next_at(c030: &Atc030, c040: &Atc040, g: Registers, s: Auditing) -> Cached
    ensures { result ≡ cached_at g c030.now c040.now s.i }
{
    cached_at(c030, c040, g, s.i)
}

// The codes of an access: 1, 2, 5 and 6.
fn is_access_code(code: u32) -> bool
    ensures { result ≡ is_access_code code }
{
    (code == 1) | (code == 2) | (code == 5) | (code == 6)
}

// The walk of a 68030 entry's key, by its tag.
fn way_030(t: u64) -> Way
    ensures { result ≡ way030 t }
{
    let code = (t / 2 % 8) as u32;
    let valid = t % 2 == 1;
    let met = is_access_code(code);
    if valid & met {
        return Way::By030 { code };
    }
    Way::Idle
}

// The walk of a 68040 slot's key.
fn way_040(k: u64) -> Way
    ensures { result ≡ way040 k }
{
    if k % 2 == 1 {
        return Way::By040 {
            supervisor: k / 2 % 2 == 1,
        };
    }
    Way::Idle
}

// The walk that an entry wants: none, which costs no fetch, where no access can meet it.
fn way_for(g: Registers, x: Cached) -> Way
    ensures { result ≡ way_for g x }
{
    if g.family == 30 {
        return way_030(x.key);
    }
    way_040(x.key)
}

// The first address of a page, in 32 bits.
fn wrapped(page: u64, shift: u32) -> u32
    requires { shift < 32 }
    ensures { result ≡ wrapped_of page shift }
{
    ((page << shift) % 4294967296) as u32
}

// The same at any shift: from 32 on none of the page's bits is left.
fn first_address(page: u64, shift: u64) -> u32
    ensures { result ≡ wrapped_of page shift }
{
    if shift < 32 {
        return wrapped(page, shift as u32);
    }
    0
}

// The first address of an entry's page.
fn address_for(g: Registers, x: Cached) -> u32
    ensures { result ≡ address_for g x }
{
    if g.family == 30 {
        return first_address(x.key / 16, x.shift);
    }
    first_address(x.key / 4, x.shift)
}

// ---- What its walk says.

// A page that S lets be cached, at the entry's base, with WP only where the entry has it.
fn is_end_030(t: u64, p: u64, address: u32, wp: bool, sup: bool, end: End) -> bool
    ensures { result ≡ is_end030 (entry_of t p 0) address wp sup end }
{
    match end {
        End::Page { field, consumed } => {
            let to = memory::page030::physical(field, consumed, address);
            let forbidden = sup & !(t / 2 % 8 / 4 % 2 == 1);
            !forbidden & ((to as u64 == p / 2) & ((p % 2 == 1) | !wp))
        }
        End::Invalid { .. } => false,
        End::BusError { .. } => false,
        End::LevelStop => false,
        End::Config => false,
    }
}

// A page at the slot's base, with W, or S for a user, only where the slot has it.
fn is_end_040(tc: u32, k: u64, b: u64, end: End040) -> bool
    ensures { result ≡ is_end040 tc (slot_of k b) end }
{
    match end {
        End040::Resident { field, wp, sup } => {
            let to = memory::page040::frame_base(tc, field);
            (to as u64 == b / 4)
                & (((b / 2 % 2 == 1) | !wp) & ((k / 2 % 2 == 1) | (b % 2 == 1) | !sup))
        }
        End040::Absent(_) => false,
        End040::Lost { .. } => false,
    }
}

// Whether a 68030 entry is stale, by its walk.
fn stale_by_030(t: u64, p: u64, address: u32, walks: Walks) -> bool
    ensures { result ≡ stale_by030 t p address walks }
{
    match walks {
        Walks::Idle => false,
        Walks::By030(w) => {
            let end = w.end;
            !is_end_030(t, p, address, w.wp, w.sup, end)
        }
        Walks::By040(_) => false,
    }
}

// Whether a 68040 slot is stale, by its walk.
fn stale_by_040(tc: u32, k: u64, b: u64, walks: Walks) -> bool
    ensures { result ≡ stale_by040 tc k b walks }
{
    match walks {
        Walks::Idle => false,
        Walks::By030(_) => false,
        Walks::By040(w) => {
            let end = w.end;
            !is_end_040(tc, k, b, end)
        }
    }
}

// After entry i: it is named, or the next is looked at, or there is none.
fn turned(stale: bool, i: u32, last: u32, named: Audit) -> Auditing
    ensures { result ≡ turned_of stale i last named }
{
    if stale {
        return done(named);
    }
    if i < last {
        return going(i + 1);
    }
    done(Audit::Clean)
}

// The next entry's walk is taken in.
fn took(g: Registers, s: Auditing, x: Cached, address: u32, walks: Walks) -> Auditing
    ensures { result ≡ audit_took g s.i x address walks }
{
    let i = s.i;
    if g.family == 30 {
        let stale = stale_by_030(x.key, x.page, address, walks);
        return turned(stale, i, 21, Audit::Stale030(i));
    }
    let stale = stale_by_040(g.tc, x.key, x.page, walks);
    turned(stale, i, 63, Audit::Stale040(i))
}

fn is_over(s: Auditing) -> bool
    ensures { result ≡ s.over }
{
    s.over
}

fn answer_of(s: Auditing) -> Audit
    ensures { result ≡ s.answer }
{
    let a = s.answer;
    a
}

fn said(a: Audit) -> Audit
    ensures { result ≡ a }
{
    a
}

// The first stale entry at `from` or above, over the caches and the ranges that the caller lends: one turn for each entry.
pub fn audit_lent(
    c030: &Atc030,
    c040: &Atc040,
    longs: &[u32],
    base: u32,
    ranges: &[Range],
    g: Registers,
    from: u32,
) -> Audit
    ensures { result ≡ audit_from g (memory longs.now base ranges.now) (caches_of c030.now c040.now) from }
{
    let two = checks::bad_longs(longs, base);
    let three = memory::ranges::any_crossed(ranges);
    let mut s = begin(c030, c040, two, three, g, from);
    let answer = loop {
        if is_over(s) {
            break answer_of(s);
        }
        let x = next_at(c030, c040, g, s);
        let address = address_for(g, x);
        let way = way_for(g, x);
        let walks = walk_for(longs, base, ranges, g, address, way);
        s = took(g, s, x, address, walks);
    };
    said(answer)
}
