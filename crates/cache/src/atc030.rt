// The 68030's 22 entries in one array: 22 tags page * 16 + code * 2 + valid, 22 pages base * 2 + WP, 22 stamps; then the most recent index, the clock, the page shift.
ghost use Rattle.std.specs.Prelude.{◌≡◌, true, false, ◌&&◌, ◌||◌, map, ℕ, ◌+◌, ◌/◌, ◌%◌, ◌^◌, ◌<◌, eqb, ltb, get_or, length, set, if◌then◌else◌, Some, None};
ghost use Rattle.definition.specs.Words.{agrees, first_of, count_of};
ghost use Rattle.definition.specs.Refusal.{bad_cache};
ghost use Rattle.definition.specs.Cache030.{Cache030, touched, hit_of, shifted, inserted, flushed_all, flushed_code, flushed_page};
ghost use Rattle.cache.specs.Packed.{odd, drop_tag};
ghost use Rattle.cache.specs.Atc030.{tags_of, pages_of, stamps_of, recent_in, clock_in, shift_in, cache_of, Parts, Stepped, Looked, key_of, held_in, IsPlace, place_of, ranked, Used};

pub type Atc030 = [u64; 69];

// Where the pages, the stamps and the three marks stand.
pub const PAGES: usize = 22;

pub const STAMPS: usize = 44;

pub const RECENT: usize = 66;

pub const CLOCK: usize = 67;

pub const SHIFT: usize = 68;

// ---- searches

// The lowest index that has this tag. It is sought from the end, so that no branch depends on where it stands: with `position` a hit took
// 1.4 times as long, and with an `Option` in the loop too.
fn first_with(c030: &Atc030, key: u64) -> Option<usize>
    ensures { IsPlace (first_of (eqb key) (tags_of c030.now)) result }
{
    let mut found = 22;
    for i in (0..22).rev() {
        if c030[i] == key {
            found = i;
        }
    }
    (found < 22).then_some(found)
}

// ---- a use

// The number of smaller stamps. With `filter` and `count` the compiler takes them one by one, and the ranking is seven times as long.
fn smaller(c030: &Atc030, x: u64) -> u64
    ensures { result ≡ count_of (λ (y : ℕ). ltb y x) (stamps_of c030.now) }
{
    let mut n: u64 = 0;
    for i in 0..22 {
        if c030[STAMPS + i] < x {
            n += 1;
        }
    }
    n
}

// Each stamp becomes the number of smaller stamps.
fn rank(c030: &mut Atc030)
    ensures { Parts c030.new (tags_of c030.old) (pages_of c030.old) (ranked (stamps_of c030.old)) (recent_in c030.old) (clock_in c030.old) (shift_in c030.old) }
{
    let old = *c030;
    for i in 0..22 {
        c030[STAMPS + i] = smaller(&old, old[STAMPS + i]);
    }
}

// The clock becomes `n`, the entry is stamped with it and is most recent.
fn put(c030: &mut Atc030, i: usize, n: u64)
    requires { i < 22 }
    ensures { Parts c030.new (tags_of c030.old) (pages_of c030.old) (set (stamps_of c030.old) i n) i n (shift_in c030.old) }
{
    c030[CLOCK] = n;
    c030[STAMPS + i] = n;
    c030[RECENT] = i as u64;
}

// A use at 2^64 - 1: the stamps are ranked first, and the clock becomes 22. A use that has room for its stamp does not come here,
// so that the ranking is not in its code.
#[inline(never)]
fn stamp_last(c030: &mut Atc030, i: usize)
    requires at { i < 22 }
    requires last { clock_in c030.old ≡ 18446744073709551615 }
    ensures { Used c030.old i c030.new }
{
    rank(c030);
    put(c030, i, 23);
}

// A use raises the clock by 1, stamps the entry with it and makes it most recent.
fn stamp(c030: &mut Atc030, i: usize)
    requires { i < 22 }
    ensures { Used c030.old i c030.new }
{
    match c030[CLOCK].checked_add(1) {
        Some(n) => put(c030, i, n),
        None => stamp_last(c030, i),
    }
}

// A hit on entry i: a recorded one, on another than the most recent entry, is a use.
fn touch(c030: &mut Atc030, i: usize, recorded: bool)
    requires { i < 22 }
    ensures { Stepped (λ (c : Cache030). if recorded then touched c i else c) c030.old c030.new }
{
    if recorded && c030[RECENT] != i as u64 {
        stamp(c030, i);
    }
}

// ---- refusal

// Refusal 4: a most recent index above 21 or a shift above 31.
pub fn bad_cache(c030: &Atc030) -> bool
    ensures { result ≡ bad_cache (cache_of c030.now) }
{
    c030[RECENT] > 21 || c030[SHIFT] > 31
}

// ---- look up

// The tag of a valid entry with this key.
fn key_of(code: u32, page: u32) -> u64
    ensures { result ≡ key_of code page }
{
    (page as u64) * 16 + (code as u64) * 2 + 1
}

// Matching tries the most recent entry, then the lowest index; a different shift misses.
fn held(c030: &Atc030, code: u32, page: u32, shift: u32) -> Option<usize>
    ensures { IsPlace (held_in c030.now (key_of (code % 8) page) shift) result }
{
    if c030[SHIFT] != shift as u64 {
        return None;
    }
    let key = key_of(code % 8, page);
    let recent = c030[RECENT] as usize;
    if recent < 22 && c030[recent] == key {
        return Some(recent);
    }
    first_with(c030, key)
}

// The base of a cached page, unless WP makes a write miss.
pub fn permitted(p: u64, write: bool) -> Option<u64>
    ensures { result ≡ (if write && odd p then None else Some (p / 2)) }
{
    if write && p % 2 == 1 {
        return None;
    }
    Some(p / 2)
}

// A look: the base of the page's entry, and a recorded hit is a use. A code has three bits, here and below.
pub fn look(
    c030: &mut Atc030,
    code: u32,
    page: u32,
    shift: u32,
    write: bool,
    recorded: bool,
) -> Option<u64>
    ensures { Looked c030.old (code % 8) page shift write recorded result c030.new }
{
    let i = held(c030, code, page, shift)?;
    let p = c030[PAGES + i];
    touch(c030, i, recorded);
    permitted(p, write)
}

// A look that changes nothing.
pub fn probe(c030: &Atc030, code: u32, page: u32, shift: u32, write: bool) -> Option<u64>
    ensures { result ≡ hit_of (cache_of c030.now) (code % 8) page shift write }
{
    let i = held(c030, code, page, shift)?;
    permitted(c030[PAGES + i], write)
}

// ---- flushes

// A tag becomes invalid where its code agrees on the mask's bits and, unless every page is meant, its page is this one.
fn without(t: u64, code: u32, mask: u32, every: bool, page: u64) -> u64
    ensures { result ≡ drop_tag (agrees (t / 2 % 8) code mask && (every || eqb (t / 16) page)) t }
{
    let f = t / 2 % 8;
    if (f ^ (code as u64)) & (mask as u64) == 0 && (every || t / 16 == page) {
        return t - t % 2;
    }
    t
}

// The same of every tag, in place.
fn drop_tags(c030: &mut Atc030, code: u32, mask: u32, every: bool, page: u64)
    ensures { Parts c030.new (map (λ (t : ℕ). drop_tag (agrees (t / 2 % 8) code mask && (every || eqb (t / 16) page)) t) (tags_of c030.old)) (pages_of c030.old) (stamps_of c030.old) (recent_in c030.old) (clock_in c030.old) (shift_in c030.old) }
{
    for t in &mut c030[..22] {
        *t = without(*t, code, mask, every, page);
    }
}

// A flush of everything only marks invalid.
pub fn flush_all(c030: &mut Atc030)
    ensures { Stepped flushed_all c030.old c030.new }
{
    drop_tags(c030, 0, 0, true, 0);
}

// A flush drops entries whose code agrees on the mask's bits.
pub fn flush_code(c030: &mut Atc030, code: u32, mask: u32)
    ensures { Stepped (λ (c : Cache030). flushed_code c code mask) c030.old c030.new }
{
    drop_tags(c030, code, mask, true, 0);
}

// The page of an address, also at a shift of 32 or more.
fn page_at(address: u32, shift: u64) -> u64
    ensures { result ≡ address / 2 ^ shift }
{
    if shift < 32 {
        return (address as u64) >> shift;
    }
    0
}

// A flush for a page drops, of these, the entries whose page is the address's at the stored shift (shift 0: none).
pub fn flush_page(c030: &mut Atc030, code: u32, mask: u32, address: u32)
    ensures { Stepped (λ (c : Cache030). flushed_page c code mask address) c030.old c030.new }
{
    let shift = c030[SHIFT];
    if shift == 0 {
        return;
    }
    drop_tags(c030, code, mask, false, page_at(address, shift));
}

// ---- insert

// The lowest index of the same key, else the first invalid, else the smallest stamp, lowest index among equals: in one pass.
// Where an entry is invalid no stamp decides, so an invalid entry's stamp is not looked at.
// With a `for` the compiler made a branch of the smallest stamp, and an insert at a miss took 1.3 times as long; as three searches too.
fn place(c030: &Atc030, key: u64) -> usize
    ensures { (result ≡ place_of (tags_of c030.now) (stamps_of c030.now) key) × (result < 22) }
{
    let mut invalid = None;
    let mut oldest = 0;
    let mut low = c030[STAMPS];
    let mut i = 0;
    loop {
        let t = c030[i];
        if t == key {
            return i;
        }
        if t % 2 == 1 {
            let x = c030[STAMPS + i];
            if x < low {
                low = x;
                oldest = i;
            }
        } else if invalid.is_none() {
            invalid = Some(i);
        }
        if i == 21 {
            return invalid.unwrap_or(oldest);
        }
        i += 1;
    }
}

// At a different shift an insert empties first.
fn fit(c030: &mut Atc030, shift: u32)
    ensures { Stepped (λ (c : Cache030). shifted c shift) c030.old c030.new }
{
    if c030[SHIFT] == shift as u64 {
        return;
    }
    drop_tags(c030, 0, 0, true, 0);
    c030[SHIFT] = shift as u64;
}

// An insert: the entry at its place is made anew, and always stamped.
pub fn insert(c030: &mut Atc030, code: u32, page: u32, shift: u32, base: u32, wp: bool)
    ensures { Stepped (λ (c : Cache030). inserted c (code % 8) page shift base wp) c030.old c030.new }
{
    fit(c030, shift);
    let key = key_of(code % 8, page);
    let i = place(c030, key);
    c030[i] = key;
    c030[PAGES + i] = (base as u64) * 2 + u64::from(wp);
    stamp(c030, i);
}
