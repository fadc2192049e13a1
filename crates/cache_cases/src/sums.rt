// The sums of the operations' rows: a number for a whole cache.
use cache::atc030::{Atc030, CLOCK, PAGES, RECENT, SHIFT, STAMPS};
use cache::atc040::{Atc040, BASES};

// One more number: (sum + number mod 2^32) * 16777619 mod 2^32.
fn mix(sum: u32, number: u64) -> u32 {
    ((sum as u64 + number % 4294967296) * 16777619 % 4294967296) as u32
}

// An entry's valid, code, page, base, WP and stamp.
fn with_entry(sum: u32, tag: u64, page: u64, stamp: u64) -> u32 {
    let key = mix(mix(mix(sum, tag % 2), tag / 2 % 8), tag / 16);
    mix(mix(mix(key, page / 2), page % 2), stamp)
}

// The 68030 cache: most recent index, clock, page shift, then each entry.
pub fn sum_030(c030: &Atc030) -> u32 {
    let mut sum = mix(mix(mix(2166136261, c030[RECENT]), c030[CLOCK]), c030[SHIFT]);
    for i in 0..22 {
        sum = with_entry(sum, c030[i], c030[PAGES + i], c030[STAMPS + i]);
    }
    sum
}

// A slot's valid, tag (frame x 2 + supervisor), base, W and S.
fn with_slot(sum: u32, key: u64, base: u64) -> u32 {
    let named = mix(mix(sum, key % 2), key / 2);
    mix(mix(mix(named, base / 4), base / 2 % 2), base % 2)
}

// The 68040 cache: each slot.
pub fn sum_040(c040: &Atc040) -> u32 {
    let mut sum = 2166136261;
    for (key, base) in c040[..BASES].iter().zip(&c040[BASES..]) {
        sum = with_slot(sum, *key, *base);
    }
    sum
}
