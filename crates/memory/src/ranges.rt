// The bus-error ranges: which of them a long touches, and whether one is crossed.
ghost use Rattle.std.specs.Prelude.{◌≡◌, List, length, slice_index_or};
ghost use Rattle.definition.specs.Memory.{touches_of, in_ranges};
ghost use Rattle.definition.specs.Refusal.{crossed};
ghost use Rattle.definition.specs.Words.{any_of};
ghost use Rattle.definition.specs.declared.Range.{Range};
ghost use Rattle.memory.specs.Ranges.{nowhere, last_byte};

use definition::Range;

// What stands past the last range: nothing asks for it.
pub const NOWHERE: Range = Range { first: 0, last: 0 };

// What bus-error ranges are lent as: their number, and each of them.
pub trait Ranges: Copy {
    ghost ranges_of: { Self → List Range };

    fn count(self) -> usize
        ensures { result ≡ length (ranges_of self) };

    fn range(self, i: usize) -> Range
        ensures { result ≡ slice_index_or (ranges_of self) i nowhere };
}

impl<'a> Ranges for &'a [Range] {
    ghost ranges_of = { λ s. s.now };

    fn count(self) -> usize {
        self.len()
    }

    // Field by field: so the compiler takes several ranges at once.
    fn range(self, i: usize) -> Range {
        if self.len() <= i {
            return NOWHERE;
        }
        Range {
            first: self[i].first,
            last: self[i].last,
        }
    }
}

// An array of them, as the slice that it is.
impl<'a, const N: usize> Ranges for &'a [Range; N] {
    ghost ranges_of = { λ a. a.now };

    fn count(self) -> usize {
        N
    }

    fn range(self, i: usize) -> Range {
        self.as_slice().range(i)
    }
}

// The last byte of the long at `at` that an address names: there is none past FFFFFFFF.
fn last_byte(at: u32) -> u32
    ensures { result ≡ last_byte at }
{
    if at < 0xffff_fffd {
        return at + 3;
    }
    0xffff_ffff
}

// Whether any of the four bytes of the long at `at` lies from `first` to `last`.
fn touches(first: u32, last: u32, at: u32) -> bool
    ensures { result ≡ touches_of first last at }
{
    let top = last_byte(at);
    (first <= last) & (first <= top) & (at <= last)
}

// Whether any of the four bytes of the long at `at` lies in a range. A turn has no branch.
pub fn hits<R: Ranges>(ranges: R, at: u32) -> bool
    ensures { result ≡ in_ranges (R.ranges_of ranges) at }
{
    let mut hit = false;
    for i in 0..ranges.count() {
        let r = ranges.range(i);
        hit |= touches(r.first, r.last, at);
    }
    hit
}

// Refusal 3: whether a range has its first above its last.
pub fn any_crossed<R: Ranges>(ranges: R) -> bool
    ensures { result ≡ any_of crossed (R.ranges_of ranges) }
{
    let mut found = false;
    for i in 0..ranges.count() {
        let r = ranges.range(i);
        found |= r.last < r.first;
    }
    found
}
