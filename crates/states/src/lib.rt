// The state line: S m=MRU c=CLOCK s=SHIFT eI=V,FC,PAGE,PHYS,WP,STAMP .. dI=V,TAG,PHYS,WP,SUP .., entries of zeros left out.
#![tactic(auto)]

use cache::atc030::{Atc030, CLOCK, PAGES, RECENT, SHIFT, STAMPS};
use cache::atc040::{Atc040, BASES};
use std::fmt;
use std::fmt::{Display, Formatter, Write};
use streams::hex::eight;
use streams::text::Text;

// Both caches, as the state line says them.
#[derive(Clone, Copy)]
pub struct State<'a> {
    pub c030: &'a Atc030,
    pub c040: &'a Atc040,
}

// One entry of the 68030 cache: eI=V,FC,PAGE,PHYS,WP,STAMP.
#[derive(Clone, Copy)]
struct Entry {
    i: usize,
    tag: u64,
    page: u64,
    stamp: u64,
}

// One slot of the 68040 cache: dI=V,TAG,PHYS,WP,SUP.
#[derive(Clone, Copy)]
struct Slot {
    i: usize,
    key: u64,
    base: u64,
}

// The last decimal digit.
fn digit(x: u64) -> u8 {
    b'0' + (x % 10) as u8
}

// The name of an entry, as ` e7=`: an index has at most two digits.
fn name(text: &mut Text<64>, letter: u8, i: usize) {
    text.push(&[b' ', letter]);
    if i >= 10 {
        text.push(&[digit(i as u64 / 10)]);
    }
    text.push(&[digit(i as u64), b'=']);
}

impl Display for Entry {
    fn fmt<W: Write>(&self, f: &mut Formatter<W>) -> fmt::Result {
        let Entry {
            i,
            tag,
            page,
            stamp,
        } = *self;
        let mut text = Text::new();
        name(&mut text, b'e', i);
        text.push(&[digit(tag % 2), b',', digit(tag / 2 % 8), b',']);
        text.push(&eight(tag / 16));
        text.push(b",");
        text.push(&eight(page / 2));
        text.push(&[b',', digit(page % 2), b',']);
        text.print(stamp);
        text.fmt(f)
    }
}

impl Display for Slot {
    fn fmt<W: Write>(&self, f: &mut Formatter<W>) -> fmt::Result {
        let Slot { i, key, base } = *self;
        let mut text = Text::new();
        name(&mut text, b'd', i);
        text.push(&[digit(key % 2), b',']);
        text.push(&eight(key / 2));
        text.push(b",");
        text.push(&eight(base / 4));
        text.push(&[b',', digit(base / 2 % 2), b',', digit(base % 2)]);
        text.fmt(f)
    }
}

impl Display for State<'_> {
    fn fmt<W: Write>(&self, f: &mut Formatter<W>) -> fmt::Result {
        let c030 = self.c030;
        let c040 = self.c040;
        write!(
            f,
            "S m={} c={} s={}",
            c030[RECENT], c030[CLOCK], c030[SHIFT]
        )?;
        let pages = &c030[PAGES..STAMPS];
        let stamps = &c030[STAMPS..RECENT];
        for (i, ((tag, page), stamp)) in c030.iter().zip(pages).zip(stamps).enumerate() {
            let (tag, page, stamp) = (*tag, *page, *stamp);
            if tag != 0 || page != 0 || stamp != 0 {
                let entry = Entry {
                    i,
                    tag,
                    page,
                    stamp,
                };
                entry.fmt(f)?;
            }
        }
        for (i, (key, base)) in c040.iter().zip(&c040[BASES..]).enumerate() {
            let (key, base) = (*key, *base);
            if key != 0 || base != 0 {
                let slot = Slot { i, key, base };
                slot.fmt(f)?;
            }
        }
        Ok(())
    }
}
