// The walk of an entry's key.
ghost use Rattle.std.specs.Prelude.{◌≡◌};
ghost use Rattle.definition.specs.Memory.{memory};
ghost use Rattle.audit.specs.Ways.{walks_of};
ghost use Rattle.audit.specs.declared.walking.Walks.{Walks};

use definition::{Range, Registers};
use memory::tables::Tables;
use walk030::Walked;
use walk040::Walked040;

// None, or a 68030 walk of every level in a code's space, or a 68040 walk.
#[derive(Clone, Copy)]
pub enum Way {
    Idle,
    By030 { code: u32 },
    By040 { supervisor: bool },
}

// How it ended.
#[derive(Clone, Copy)]
pub enum Walks {
    Idle,
    By030(Walked),
    By040(Walked040),
}

// No walk was wanted.
fn idle() -> Walks
    ensures { result ≡ Walks.Idle }
{
    Walks::Idle
}

// The 68030 walk that was wanted.
fn by_030(w: Walked) -> Walks
    ensures { result ≡ Walks.By030 w }
{
    Walks::By030(w)
}

// The 68040 walk that was wanted.
fn by_040(w: Walked040) -> Walks
    ensures { result ≡ Walks.By040 w }
{
    Walks::By040(w)
}

// The walk that an entry wants, if it wants one.
pub fn walk_for(
    longs: &[u32],
    base: u32,
    ranges: &[Range],
    g: Registers,
    address: u32,
    way: Way,
) -> Walks
    ensures { result ≡ walks_of (memory longs.now base ranges.now) g address way }
{
    let tables = Tables {
        longs,
        base,
        ranges,
    };
    match way {
        Way::Idle => idle(),
        Way::By030 { code } => {
            let limit = walk030::EVERY_LEVEL;
            let walk = walk030::walk(&tables, g, address, code, limit);
            by_030(walk)
        }
        Way::By040 { supervisor } => {
            let walk = walk040::walk(&tables, g, address, supervisor);
            by_040(walk)
        }
    }
}
