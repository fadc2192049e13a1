// What a 68030 tree maps in one code, from an address on, as numbers in a lent output. A table reads its entries, and an entry opens its own table.
// The bus-error ranges are lent as numbers, two for each (docs/DECISIONS.md).
#![tactic(auto)]

mod reading;
mod seeing;
mod taking;
mod writing;

ghost use Rattle.std.specs.Prelude.{◌≡◌, ◌^◌, ◌<◌, ◌≤◌, length, drop};
ghost use Rattle.definition.specs.Memory.{memory};
ghost use Rattle.definition.specs.Walk030.{used, widths_of, sum_of};
ghost use Rattle.definition.specs.List.{table_ranges, entry_ranges, tree_ranges, ranges_from, list as list_of};
ghost use Rattle.list.specs.Numbers.{pairs_of, ListedTo};
ghost use Rattle.list.specs.Writing.{written, begun, puts, Placed};

use crate::reading::Numbers;
use crate::seeing::{code_entry, entry_at, is_before, is_last, look, root_table, width_at};
use crate::writing::{Progress, put};
use definition::{Listed, Node, Registers, Root, Seen};
use memory::tables::Tables;

// 2^w entries.
fn entries(w: u32) -> u32
    requires { w < 16 }
    ensures { result ≡ 2 ^ w }
{
    1 << w
}

// The ranges of a table that end past `from`. Its level is `level`: of the four there are 4 - level left, and they fall with each table.
#[cycle(entry_table)]
fn table(
    tables: &Tables<Numbers>,
    out: &mut [u64],
    s: Progress,
    ws: [u32; 4],
    level: usize,
    t: Node,
    from: u32,
) -> Progress
    requires { Placed ws level t }
    ensures { written out.new result ≡ puts (ranges_from from (table_ranges tables.now (used (drop level ws)) t)) (written out.old s) }
{
    let w = width_at(ws, level);
    if w == 0 {
        return s;
    }
    let n = entries(w);
    let mut so = s;
    for i in 0..n {
        if so.next.is_some() {
            return so;
        }
        let e = entry_at(t, w, i);
        so = entry(tables, out, so, ws, level + 1, e, from);
    }
    so
}

// The ranges of an entry that end past `from`, with the levels from `level` on below it.
#[cycle(entry_table)]
fn entry(
    tables: &Tables<Numbers>,
    out: &mut [u64],
    s: Progress,
    ws: [u32; 4],
    level: usize,
    e: Node,
    from: u32,
) -> Progress
    requires { Placed ws level e }
    ensures { written out.new result ≡ puts (ranges_from from (entry_ranges tables.now (used (drop level ws)) e)) (written out.old s) }
{
    if is_before(e, from) {
        return s;
    }
    let last = is_last(ws, level);
    match look(tables, last, e) {
        Seen::Nothing => s,
        Seen::One(x) => put(out, s, x),
        Seen::Opens(t) => table(tables, out, s, ws, level, t, from),
    }
}

// The ranges of a tree that end past `from`. With a function-code level the code's entry of the root table is all of it.
fn tree(
    tables: &Tables<Numbers>,
    out: &mut [u64],
    tc: u32,
    root: Root,
    code: u32,
    from: u32,
) -> Progress
    requires { sum_of (used (widths_of tc)) ≤ 32 }
    ensures { written out.new result ≡ puts (ranges_from from (tree_ranges tables.now tc root code)) (begun out.old) }
{
    let s = Progress {
        count: 0,
        next: None,
    };
    let ws = memory::page030::widths(tc);
    let t = root_table(root);
    if memory::bits::bit(tc, 24) {
        let e = code_entry(t, code);
        return entry(tables, out, s, ws, 0, e, from);
    }
    table(tables, out, s, ws, 0, t, from)
}

// The ranges of a code's tree from an address on, as many as have room in the output.
pub fn list(
    longs: &[u32],
    base: u32,
    ranges: &[u32],
    g: Registers,
    code: u32,
    from: u32,
    out: &mut [u64],
) -> Listed
    ensures { ListedTo (list_of g (memory longs.now base (pairs_of ranges.now)) code from (length out.old)) out.old out.new result }
{
    let tables = Tables {
        longs,
        base,
        ranges: Numbers(ranges),
    };
    let n = taking::refusal(&tables, g, code);
    if n != 0 {
        return Listed::Refused(n);
    }
    let root = walk030::root_of(g, code);
    let s = tree(&tables, out, g.tc, root, code, from);
    writing::answer(s)
}
