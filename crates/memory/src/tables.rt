// Table memory as a call is lent it.
ghost use Rattle.std.specs.Prelude.{◌≡◌};
ghost use Rattle.definition.specs.Memory.{fetch_of};
ghost use Rattle.definition.specs.Refusal.{bad_base, crossed};
ghost use Rattle.definition.specs.Words.{any_of};

use crate::longs;
use crate::ranges::{Ranges, any_crossed, hits};
use std::marker::Model;

// Longs from a base address, and bus-error ranges. A clause sees the definition's memory of them.
#[derive(Drop)]
pub struct Tables<'a, R: Ranges> {
    pub longs: &'a [u32],
    pub base: u32,
    pub ranges: R,
}

impl<'a, R: Ranges> Model for Tables<'a, R> {
    ghost use Rattle.definition.specs.Memory.{Memory, memory};

    ghost Value = { Memory };

    ghost view = { λ t. memory t.longs.now t.base (R.ranges_of t.ranges) };
}

impl<'a, R: Ranges> Tables<'a, R> {
    // Refusal 2: base not a multiple of 4, or base + 4 x longs above 2^32.
    pub fn is_bad_base(&self) -> bool
        ensures { result ≡ bad_base self.now }
    {
        longs::bad_base(self.longs.len(), self.base)
    }

    // Refusal 3: whether a range has its first above its last.
    pub fn is_crossed(&self) -> bool
        ensures { result ≡ any_of crossed self.now.ranges }
    {
        any_crossed(self.ranges)
    }

    // A long fails if it lies outside the longs or any of its four bytes lies in a range.
    pub fn fetch(&self, at: u32) -> Option<u32>
        ensures { result ≡ fetch_of self.now at }
    {
        let hit = hits(self.ranges, at);
        longs::long_unless(self.longs, self.base, at, hit)
    }
}
