// Walks tables that the original's walks were tried on, by the proved walks, and says how many of them differ.
// The rows on standard input are those of `differential walks 1 500` (differential/README.md): registers, access and base, the
// longs that are not 0, the bus-error ranges, what the original's translation from empty caches answers, and for family 30 what
// its PTEST answers at the levels 1 to 7.
#![tactic(auto)]

mod answers;
mod rows;

use definition::Translation;
use rows::{Case, Row};

// A translation as a row has it: fault address kind cause count.
fn numbers_of(t: Translation, count: u32) -> Option<[u32; 5]> {
    match t {
        Translation::Address(address) => Some([0, address, 0, 0, count]),
        Translation::Fault {
            kind,
            cause,
            address,
        } => Some([
            1,
            address,
            definition::kind_number(kind),
            definition::cause_number(cause),
            count,
        ]),
        Translation::Refused(_) => None,
    }
}

// PTEST at a level as a row has it: MMUSR address count.
fn tested(c: &Case, level: u32) -> [u32; 3] {
    let w = c.walked_030(level);
    [answers::mmusr(w, c.code), w.last, w.asked]
}

// Whether the walks of a 68030 answer so: the translation, and PTEST at each level.
fn same_030(c: &Case, translation: &[u32; 5], tests: &[u32]) -> bool {
    let w = c.walked_030(5);
    let t = answers::translated_030(w, c.code, c.write, c.address);
    tests.len() == 21
        && numbers_of(t, w.asked) == Some(*translation)
        && tests
            .chunks_exact(3)
            .zip(1..8)
            .all(|(test, level)| test == tested(c, level).as_slice())
}

// Whether the walk of a 68040 answers so: the translation alone.
fn same_040(c: &Case, translation: &[u32; 5], tests: &[u32]) -> bool {
    let w = c.walked_040();
    let t = answers::translated_040(w, c.registers.tc, c.code, c.write, c.address);
    tests.is_empty() && numbers_of(t, w.asked) == Some(*translation)
}

// Whether a row's case answers as the row says, if it is one.
fn answers_so(row: &[u32]) -> Option<bool> {
    let row = Row::cut(row)?;
    let (translation, tests) = row.answers.split_first_chunk::<5>()?;
    let mut longs = [0; 8192];
    let c = row.case(&mut longs)?;
    Some(match c.registers.family {
        30 => same_030(&c, translation, tests),
        _ => same_040(&c, translation, tests),
    })
}

fn main(rt: HostRuntime) {
    vectors::every_row(&rt, rt.stdin(), |row| answers_so(row) == Some(true)).print(&rt, "walks");
}
