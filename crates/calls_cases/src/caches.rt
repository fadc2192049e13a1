// Reads and writes of logical 02041ABC over 68030 caches that no replay reaches, and at the clock's end.
// A line has the answer with its count, the most recent index, the clock, the shift, and entries 0, 3 and 7 as tag, page, stamp.
// A tag is page * 16 + code * 2 + valid, a page base * 2 + WP.
ghost use Rattle.std.specs.Prelude.{◌<◌};

use crate::setting;
use cache::atc030::{Atc030, CLOCK, PAGES, RECENT, SHIFT, STAMPS};
use definition::{Access, Translation};
use std::io;

// The valid tag of the page of 02041ABC, user data, and that of another page.
const KEY: u64 = 0x20413;

const OTHER: u64 = 0x99993;

// 2^64 - 1.
const LAST: u64 = u64::MAX;

// A read of user data.
fn reading(recorded: bool) -> Access {
    setting::access(None, false, recorded)
}

// A recorded write of user data.
fn writing() -> Access {
    setting::access(None, true, true)
}

// 22 entries of another page, base 11000 with WP or not, and one stamp.
fn others(wp: u64, stamp: u64) -> Atc030 {
    let mut c030 = [0u64; 69];
    c030[..PAGES].fill(OTHER);
    c030[PAGES..STAMPS].fill(0x22000 | wp);
    c030[STAMPS..RECENT].fill(stamp);
    c030
}

// The tags of entries 3 and 7.
#[derive(Clone, Copy)]
struct Tags {
    third: u64,
    seventh: u64,
}

// The stamps: one number, with two others at 3 and at 7.
#[derive(Clone, Copy)]
struct Stamps {
    all: u64,
    third: u64,
    seventh: u64,
}

// A cache of other pages but at 3 and at 7, where the base is 77000; most recent index, clock and shift.
fn cache_of(tags: Tags, wp: u64, stamps: Stamps, recent: u64, clock: u64, shift: u64) -> Atc030 {
    let mut c030 = others(wp, stamps.all);
    c030[3] = tags.third;
    c030[STAMPS + 3] = stamps.third;
    c030[7] = tags.seventh;
    c030[PAGES + 7] = 0xEE000 | wp;
    c030[STAMPS + 7] = stamps.seventh;
    c030[RECENT] = recent;
    c030[CLOCK] = clock;
    c030[SHIFT] = shift;
    c030
}

// Writes an answer.
fn show_answer<P: Print>(rt: &P, answer: Translation) -> io::Result<()> {
    match answer {
        Translation::Address(x) => print!(rt; "A {x:08x}"),
        Translation::Fault { .. } => print!(rt; "F"),
        Translation::Refused(n) => print!(rt; "R {n}"),
    }
}

// Writes entry i.
fn show_entry<P: Print>(rt: &P, c030: &Atc030, i: usize) -> io::Result<()>
    requires { i < 22 }
{
    let tag = c030[i];
    let page = c030[PAGES + i];
    let stamp = c030[STAMPS + i];
    print!(rt; " {tag:x},{page:x},{stamp}")
}

// Translates over a cache and writes what it gives and leaves.
fn tried<P: Print>(rt: &P, then: Atc030, a: Access) -> io::Result<()> {
    let mut c030 = then;
    let mut c040 = [0u64; 128];
    let longs = setting::tree();
    let g = setting::registers(30, true);
    let r = translate::translate(&mut c030, &mut c040, &longs, 0x1000, &[], false, g, a);
    let count = r.count;
    show_answer(rt, r.answer)?;
    print!(rt; " {count}")?;
    print!(rt; " m={} c={} s={}", c030[RECENT], c030[CLOCK], c030[SHIFT])?;
    show_entry(rt, &c030, 0)?;
    show_entry(rt, &c030, 3)?;
    show_entry(rt, &c030, 7)?;
    println!(rt; "")
}

// Two entries of one key, at 3 and 7, and all stamps 5.
fn two_of(wp: u64, recent: u64, shift: u64) -> Atc030 {
    let tags = Tags {
        third: KEY,
        seventh: KEY,
    };
    let stamps = Stamps {
        all: 5,
        third: 5,
        seventh: 5,
    };
    cache_of(tags, wp, stamps, recent, 9, shift)
}

// The same at shift 12.
fn twice<P: Print>(rt: &P, wp: u64, recent: u64, a: Access) -> io::Result<()> {
    tried(rt, two_of(wp, recent, 12), a)
}

// No entry of the key, and the stamps 100 but at 7.
fn full<P: Print>(rt: &P, seventh: u64, shift: u64) -> io::Result<()> {
    let tags = Tags {
        third: OTHER,
        seventh: OTHER,
    };
    let stamps = Stamps {
        all: 100,
        third: 100,
        seventh,
    };
    tried(rt, cache_of(tags, 0, stamps, 0, 7, shift), reading(true))
}

// The clock at its end, the stamps 100 but 5 at 3 and the clock's own at 7.
fn at_the_end<P: Print>(rt: &P, seventh: u64, wp: u64, recent: u64, a: Access) -> io::Result<()> {
    let tags = Tags {
        third: OTHER,
        seventh,
    };
    let stamps = Stamps {
        all: 100,
        third: 5,
        seventh: LAST,
    };
    tried(rt, cache_of(tags, wp, stamps, recent, LAST, 12), a)
}

// Caches that no replay reaches.
pub fn unreached<P: Print>(rt: &P) -> io::Result<()> {
    println!(rt; "unreached")?;
    // Most recent index 200, then shift 77. Number 4, and all stays.
    tried(rt, two_of(0, 200, 12), reading(true))?;
    tried(rt, two_of(0, 0, 77), reading(true))?;
    // Most recent 7: 'Matching tries the most recent entry', base 77000, and a hit on it changes nothing.
    twice(rt, 0, 7, reading(true))?;
    // Most recent 0: 'then the lowest index', base 11000. The clock becomes 10, stamps 3, and 3 is most recent.
    twice(rt, 0, 0, reading(true))?;
    // The same unrecorded: nothing changes.
    twice(rt, 0, 0, reading(false))?;
    // A write, WP in both: the hit on 7 misses, 3 longs; 'Insert takes the lowest index of the same key': 3, without WP, stamp 10.
    twice(rt, 1, 7, writing())?;
    // Most recent 0: the hit on 3 is a use too, at 10; the insert then stamps it 11.
    twice(rt, 1, 0, writing())?;
    // Full, stamps above the clock 7: 'the smallest stamp', 50 at 7, goes, and the new one's is 8.
    full(rt, 50, 12)?;
    // All stamps equal: the 'lowest index among equals', 0.
    full(rt, 100, 12)?;
    // Stored shift 31: 'an insert then empties first', and the first invalid is 0.
    full(rt, 50, 31)
}

// The clock at 2^64 - 1: 'before it is raised each stamp becomes the number of smaller stamps and the clock 22'.
pub fn clock<P: Print>(rt: &P) -> io::Result<()> {
    println!(rt; "clock")?;
    // A recorded hit on 7: stamps 1 but 0 at 3, the clock 22, then 23, which is the stamp of 7.
    at_the_end(rt, KEY, 0, 0, reading(true))?;
    // A recorded hit on the most recent: nothing changes.
    at_the_end(rt, KEY, 0, 7, reading(true))?;
    // An unrecorded hit: nothing changes.
    at_the_end(rt, KEY, 0, 0, reading(false))?;
    // An insert: the smallest stamp, 5 at 3, goes; ranks 1, and 21 at 7; the clock 23 is the stamp of 3.
    at_the_end(rt, OTHER, 0, 0, reading(true))?;
    // A write that hits WP at 7: the use ranks and raises to 23, the insert raises to 24.
    at_the_end(rt, KEY, 1, 0, writing())
}
