// One 68030 descriptor.
ghost use Rattle.std.specs.Prelude.{◌≡◌, false, ◌%◌, ◌*◌, ◌/◌};
ghost use Rattle.definition.specs.Walk030.{entry_of, read_of};
ghost use Rattle.memory.specs.Descriptors.{described_of, shown_read};

use crate::bits::bit;
use crate::ranges::Ranges;
use crate::tables::Tables;

// The type of a descriptor or of a root: 0 is invalid, 1 a page, 2 and 3 name a table, of short and of long descriptors.
#[derive(Clone, Copy)]
pub enum Kind {
    Invalid,
    Page,
    Table { long: bool },
}

// It is in 1:0 of the first long.
impl From<u32> for Kind {
    ghost use Rattle.std.specs.Prelude.{◌≡◌, ◌%◌};
    ghost use Rattle.memory.specs.Descriptors.{kind_of};

    ghost from_gives = { λ x k. k ≡ kind_of (x % 4) };

    fn from(first: u32) -> Self {
        match first % 4 {
            0 => Kind::Invalid,
            1 => Kind::Page,
            n @ 2.. => Kind::Table { long: n == 3 },
        }
    }
}

// A descriptor, with the number of longs asked for it.
#[derive(Clone, Copy)]
pub struct Descriptor {
    pub kind: Kind,
    pub field: u32,
    pub wp: bool,
    pub sup: bool,
    pub asked: u32,
}

// The long of a descriptor that failed, with the number of longs asked for.
#[derive(Clone, Copy)]
pub struct Lost {
    pub at: u32,
    pub asked: u32,
}

// Entry i of the table at `table` is 4i or 8i after it, wrapping.
pub fn entry(table: u32, index: u32, long: bool) -> u32
    ensures { result ≡ entry_of table index long }
{
    if long {
        ((table as u64 + index as u64 * 8) % 4294967296) as u32
    } else {
        ((table as u64 + index as u64 * 4) % 4294967296) as u32
    }
}

// The address of a table: field & FFFFFFF0.
pub fn table_of(field: u32) -> u32
    ensures { result ≡ field / 16 * 16 }
{
    field - field % 16
}

// The address of an indirect descriptor's target: field & FFFFFFFC.
pub fn target_of(field: u32) -> u32
    ensures { result ≡ field / 4 * 4 }
{
    field - field % 4
}

// Type in 1:0 and WP in bit 2 of the first long, S in bit 8 of the first long of a long descriptor.
fn described(first: u32, field: u32, long: bool, asked: u32) -> Descriptor
    ensures { result ≡ described_of first field long asked }
{
    let kind = Kind::from(first);
    let wp = bit(first, 2);
    let sup = bit(first, 8);
    Descriptor {
        kind,
        field,
        wp,
        sup: long & sup,
        asked,
    }
}

// The descriptor at `at`: a short one is one long, which is its address field too; a long one is two, and the address field is the last.
#[tactic(auto, unfolding(definition::specs::Walk030::read_of))]
pub fn read_desc<R: Ranges>(tables: &Tables<R>, at: u32, long: bool) -> Result<Descriptor, Lost>
    ensures { result ≡ shown_read (read_of tables.now at long) }
{
    let Some(first) = tables.fetch(at) else {
        return Err(Lost { at, asked: 1 });
    };
    if !long {
        return Ok(described(first, first, false, 1));
    }
    let next = entry(at, 1, false);
    let Some(field) = tables.fetch(next) else {
        return Err(Lost { at: next, asked: 2 });
    };
    Ok(described(first, field, true, 2))
}
