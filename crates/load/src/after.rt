// What the walk gives a load: it caches as a translated access would, and only its count is answered.
ghost use Rattle.cache.specs.Atc030.{cache_of};
ghost use Rattle.load.specs.Loaded.{concluded_load, LoadedIn};

use crate::{Found, LoadOutcome};
use cache::atc030::Atc030;
use definition::{Load, Registers};

// The answer, its count and the next 68030 cache.
pub fn concluded(
    c030: &mut Atc030,
    g: Registers,
    write: bool,
    address: u32,
    found: Found,
) -> LoadOutcome
    ensures { LoadedIn (concluded_load g.tc write address (cache_of c030.old) found) result.answer result.count c030.new }
{
    match found {
        Found::Settled(answer) => LoadOutcome { answer, count: 0 },
        Found::By030 { code, walk } => {
            search::end_030(c030, g.tc, code, address, write, walk);
            LoadOutcome {
                answer: Load::Loaded,
                count: walk.asked,
            }
        }
    }
}
