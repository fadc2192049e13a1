// A comparison, row by row.
ghost use Rattle.std.specs.Prelude.{◌≤◌};

use crate::rows::Rows;
use std::io::Read;

// How many rows were judged, and how many of them differ.
#[derive(Clone, Copy, Debug, PartialEq, Eq)]
pub struct Tally {
    pub rows: u64,
    pub differ: u64,
    ghost among: { differ ≤ rows },
}

impl Tally {
    // The next row is judged. The first five that differ are told, by their number from 1.
    fn judge<P: Print>(&mut self, rt: &P, same: bool) {
        self.rows = self.rows.saturating_add(1);
        if same {
            return;
        }
        if self.differ < 5 {
            let row = self.rows;
            let _ = println!(rt; "row {row} differs");
        }
        self.differ = self.differ.saturating_add(1);
    }

    // Writes the verdict, as `5000 operations, 0 differ`.
    pub fn print<P: Print>(self, rt: &P, what: &str) {
        let rows = self.rows;
        let differ = self.differ;
        let _ = println!(rt; "{rows} {what}, {differ} differ");
    }
}

// Judges every row of an input. A malformed one differs, and is the last.
pub fn every_row<P: Print, R: Read + Drop, F: FnMut(&[u32]) -> bool + Drop>(
    rt: &P,
    input: R,
    mut is_same: F,
) -> Tally
    requires { F.IsAlwaysCallable is_same }
{
    let mut tally = Tally { rows: 0, differ: 0 };
    let mut rows = Rows::new(input);
    // The loop counts its turns, since nothing says that a file ends.
    for _ in 0..u64::MAX {
        match rows.next_row() {
            Ok(Some(row)) => {
                let same = is_same(row);
                tally.judge(rt, same);
            }
            Ok(None) => {
                return tally;
            }
            Err(Malformed) => {
                tally.judge(rt, false);
                return tally;
            }
        }
    }
    tally
}
