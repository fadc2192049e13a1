// Runs operations on the original's two caches, with their answers, through the proved ones, and says how many differ.
// The rows on standard input are those of `differential cacheops 1 5000` (differential/README.md):
// operation a b c d e hit base sum, where `sum` is a number for the whole cache after the operation.
#![tactic(auto)]

mod sums;

use cache::atc030::Atc030;
use cache::atc040::Atc040;
use cache::{CachePair, atc030, atc040};

// Operations 1 to 6, on the 68030 cache: what they answer.
fn on_030(row: &[u32; 9], c030: &mut Atc030) -> Option<u64> {
    let code = row[1] % 8;
    let operation = row[0];
    match operation {
        1 => atc030::look(c030, code, row[2], row[3], row[4] == 1, true),
        2 => atc030::probe(c030, code, row[2], row[3], row[4] == 1),
        3 => {
            atc030::insert(c030, code, row[2], row[3], row[4], row[5] == 1);
            None
        }
        4 => {
            atc030::flush_all(c030);
            None
        }
        5 => {
            atc030::flush_code(c030, code, row[2]);
            None
        }
        _ => {
            atc030::flush_page(c030, code, row[2], row[3]);
            None
        }
    }
}

// Operations 11 to 14, on the 68040 cache.
fn on_040(row: &[u32; 9], c040: &mut Atc040) -> Option<u64> {
    let operation = row[0];
    match operation {
        11 => atc040::look_040(c040, row[1], row[2] == 1, row[3] == 1),
        12 => {
            atc040::insert_040(c040, row[1], row[2] == 1, row[3], row[4] == 1, row[5] == 1);
            None
        }
        13 => {
            atc040::flush_all_040(c040);
            None
        }
        _ => {
            atc040::flush_frame(c040, row[1]);
            None
        }
    }
}

// Whether the row has this answer and this sum.
fn has(row: &[u32; 9], answer: Option<u64>, sum: u32) -> bool {
    match answer {
        Some(base) => (row[6] == 1) & (u64::from(row[7]) == base) & (row[8] == sum),
        None => (row[6] == 0) & (row[7] == 0) & (row[8] == sum),
    }
}

// Whether an operation gives what its row says. A row of another length, or with another number for the operation, differs.
fn is_same(row: &[u32], caches: &mut CachePair) -> bool {
    let Ok(row) = <&[u32; 9]>::try_from(row) else {
        return false;
    };
    let operation = row[0];
    match operation {
        1..=6 => {
            let answer = on_030(row, &mut caches.c030);
            has(row, answer, sums::sum_030(&caches.c030))
        }
        11..=14 => {
            let answer = on_040(row, &mut caches.c040);
            has(row, answer, sums::sum_040(&caches.c040))
        }
        _ => false,
    }
}

// Every row, from empty caches.
fn main(rt: HostRuntime) {
    let mut caches = CachePair::empty();
    vectors::every_row(&rt, rt.stdin(), |row| is_same(row, &mut caches)).print(&rt, "operations");
}
