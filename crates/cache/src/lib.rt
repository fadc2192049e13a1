// The two caches of document 01. The functions take them as arrays of numbers that are lent and changed in place; specs/ says which cache these are.
#![tactic(auto)]

pub mod atc030;
pub mod atc040;

ghost use Rattle.std.specs.Prelude.{◌≡◌};
ghost use Rattle.definition.specs.Translate.{empty_caches};
ghost use Rattle.cache.specs.Pair.{pair_of};

use crate::atc030::Atc030;
use crate::atc040::Atc040;

// The pair of caches by value.
#[derive(Clone, Copy)]
pub struct CachePair {
    pub c030: Atc030,
    pub c040: Atc040,
}

impl CachePair {
    // The empty caches that a replay starts from: every number 0.
    pub fn empty() -> Self
        ensures { pair_of result ≡ empty_caches }
    {
        CachePair {
            c030: [0; 69],
            c040: [0; 128],
        }
    }
}
