// What an entry of a table is, and where the tables and entries of a tree stand.
ghost use Rattle.std.specs.Prelude.{◌≡◌, ◌+◌, ◌-◌, ◌*◌, ◌^◌, ◌<◌, ◌≤◌, get_or, drop, leb};
ghost use Rattle.definition.specs.Walk030.{used};
ghost use Rattle.definition.specs.List.{page_at, lost_at, seen_of, entry_at, none_left, root_table, code_entry};
ghost use Rattle.list.specs.Looking.{opened, target_by};

use crate::reading::Numbers;
use definition::{Mapped, Node, Root, Seen};
use memory::descriptor::{Descriptor, Kind, Lost, read_desc, table_of, target_of};
use memory::tables::Tables;

// ---- what an entry is

// The entry's stretch, at a page's address field.
fn page_at(e: Node, d: Descriptor) -> Mapped
    ensures { result ≡ page_at e d.field d.wp d.sup }
{
    Mapped {
        first: e.first,
        consumed: e.consumed,
        physical: d.field / 256 * 256,
        wp: e.wp | d.wp,
        sup: e.sup | d.sup,
        lost: false,
    }
}

// The entry's stretch, whose descriptor can't be fetched.
fn lost_at(e: Node) -> Mapped
    ensures { result ≡ lost_at e }
{
    Mapped {
        first: e.first,
        consumed: e.consumed,
        physical: 0,
        wp: false,
        sup: false,
        lost: true,
    }
}

// The table that an entry names.
fn table_at(e: Node, d: Descriptor, long: bool) -> Node
    ensures { result ≡ opened e long d.field d.wp d.sup }
{
    Node {
        at: table_of(d.field),
        long,
        first: e.first,
        consumed: e.consumed,
        wp: e.wp | d.wp,
        sup: e.sup | d.sup,
    }
}

// The target of an indirect descriptor must be a page.
fn at_target(e: Node, read: Result<Descriptor, Lost>) -> Seen
    ensures { result ≡ target_by e read }
{
    match read {
        Err(_) => Seen::One(lost_at(e)),
        Ok(d) => match d.kind {
            Kind::Page => Seen::One(page_at(e, d)),
            _ => Seen::Nothing,
        },
    }
}

// What an entry is by its descriptor. On the last level types 2 and 3 are indirect.
pub fn look(tables: &Tables<Numbers>, last: bool, e: Node) -> Seen
    ensures { result ≡ seen_of tables.now last e }
{
    let d = match read_desc(tables, e.at, e.long) {
        Ok(d) => d,
        Err(_) => return Seen::One(lost_at(e)),
    };
    match d.kind {
        Kind::Invalid => Seen::Nothing,
        Kind::Page => Seen::One(page_at(e, d)),
        Kind::Table { long } => {
            if last {
                let to = target_of(d.field);
                return at_target(e, read_desc(tables, to, long));
            }
            Seen::Opens(table_at(e, d, long))
        }
    }
}

// ---- where they stand

// The root's table: it has every address.
pub fn root_table(root: Root) -> Node
    ensures { result ≡ root_table root }
{
    Node {
        at: table_of(root.address),
        long: root.limit % 4 == 3,
        first: 0,
        consumed: 0,
        wp: false,
        sup: false,
    }
}

// The code's entry of a function-code table: it has the table's addresses.
pub fn code_entry(t: Node, code: u32) -> Node
    ensures { result ≡ code_entry t code }
{
    Node {
        at: memory::descriptor::entry(t.at, code, t.long),
        long: t.long,
        first: t.first,
        consumed: t.consumed,
        wp: t.wp,
        sup: t.sup,
    }
}

// Entry i of a table whose level has width w.
pub fn entry_at(t: Node, w: u32, i: u32) -> Node
    requires { (0 < w) × (t.consumed + w ≤ 32) × (t.first + i * 2 ^ (32 - (t.consumed + w)) < 2 ^ 32) }
    ensures { result ≡ entry_at t w i }
{
    let consumed = t.consumed + w;
    Node {
        at: memory::descriptor::entry(t.at, i, t.long),
        long: t.long,
        first: t.first + (i << (32 - consumed)),
        consumed,
        wp: t.wp,
        sup: t.sup,
    }
}

// ---- the levels

// The width of a level: 0 past the last.
pub fn width_at(ws: [u32; 4], level: usize) -> u32
    ensures { result ≡ get_or ws level 0 }
{
    if level < 4 {
        return ws[level];
    }
    0
}

// Whether no level is left.
pub fn is_last(ws: [u32; 4], level: usize) -> bool
    ensures { result ≡ none_left (used (drop level ws)) }
{
    let w = width_at(ws, level);
    w == 0
}

// Whether the stretch ends at or before `from`.
pub fn is_before(e: Node, from: u32) -> bool
    requires { e.consumed ≤ 32 }
    ensures { result ≡ leb (e.first + 2 ^ (32 - e.consumed)) from }
{
    e.first as u64 + size(e.consumed) <= from as u64
}

// The size of a stretch.
fn size(consumed: u32) -> u64
    requires { consumed ≤ 32 }
    ensures { (result ≡ 2 ^ (32 - consumed)) × (result ≤ 2 ^ 32) }
{
    1 << (32 - consumed)
}
