// Bus-error ranges that are lent as numbers: a first and a last address each.
ghost use Rattle.list.specs.Numbers.{pairs_of};

use definition::Range;
use memory::ranges::{NOWHERE, Ranges};

// A number alone at the end is no range.
#[derive(Clone, Copy)]
pub struct Numbers<'a>(pub &'a [u32]);

impl<'a> Ranges for Numbers<'a> {
    ghost ranges_of = { λ s. pairs_of s.0.now };

    #[tactic(auto, using(crate::proofs::Pairs::length_pairs))]
    fn count(self) -> usize {
        self.0.len() / 2
    }

    #[tactic(auto, using(crate::proofs::Pairs::length_pairs, crate::proofs::Pairs::pairs_at))]
    fn range(self, i: usize) -> Range {
        if self.count() <= i {
            return NOWHERE;
        }
        Range {
            first: self.0[i * 2],
            last: self.0[i * 2 + 1],
        }
    }
}
