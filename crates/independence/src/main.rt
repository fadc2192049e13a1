// Plays pairs of stored replays, and compares what their watched accesses are answered (differential/README.md, 'Pairs of
// replays'). The arguments name the pairs: NAME_1.trace and NAME_2.trace are the replays. NAME.watched says first whether the
// pair is steady; then, for each watched access, which record of either replay it is and what the original answers it with both
// caches empty, without the count.
#![tactic(auto)]

mod sides;

use sides::{Buffers, Side, Unplayed};
use std::fmt;
use std::rt::Files;
use stored::report::Report;
use stored::{arguments, files, lines};
use vectors::{Cursor, Number};

type Out<'a, P> = Report<'a, P, 4096>;

// What the watched accesses of a pair show: how many there are, how many are answered alike, how many by the cacheless walk's
// answer in both replays, how many alike with other counts, and how many not alike or not so.
#[derive(Clone, Copy, Default)]
struct Shown {
    watched: u64,
    alike: u64,
    walked: u64,
    counts: u64,
    differ: u64,
}

// All pairs of a sort: how many, their watched accesses, and how many of these differ.
#[derive(Clone, Copy, Default)]
struct Sum {
    pairs: u64,
    watched: u64,
    differ: u64,
}

impl Sum {
    // One pair more.
    fn add(&mut self, shown: Shown) {
        count(&mut self.pairs, true);
        self.watched = self.watched.wrapping_add(shown.watched);
        self.differ = self.differ.wrapping_add(shown.differ);
    }
}

impl fmt::Display for Sum {
    fn fmt<W: fmt::Write>(&self, f: &mut fmt::Formatter<W>) -> fmt::Result {
        let Sum {
            pairs,
            watched,
            differ,
        } = *self;
        write!(
            f,
            "{pairs} pairs, {watched} watched accesses, {differ} differ"
        )
    }
}

// One more where it is so.
fn count(n: &mut u64, so: bool) {
    *n = n.wrapping_add(u64::from(so));
}

// ---- A watched access.

// A row: the record of the first and of the second replay, and the walk's answer.
#[derive(Clone, Copy)]
struct Row<'a> {
    one: u32,
    two: u32,
    walk: &'a [u8],
}

// The number at a cursor, where another part comes after it.
fn number_before(line: &[u8], c: Cursor) -> Option<Number> {
    vectors::read_number(line, c).ok()?.filter(|n| !n.last)
}

impl<'a> Row<'a> {
    // The row of a line.
    fn of(line: &'a [u8]) -> Option<Row<'a>> {
        let one = number_before(line, Cursor { at: 0 })?;
        let two = number_before(line, one.next)?;
        let walk = line.get(two.next.at..)?;
        Some(Row {
            one: one.value,
            two: two.value,
            walk: walk.strip_suffix(b"\n").unwrap_or(walk),
        })
    }
}

// ---- A pair.

// A pair by its name: both replays, and what they show so far.
#[derive(Drop)]
struct Pair<'a, 'r, 'p, P: Print + Eprint> {
    name: &'a [u8],
    first: Side<'a>,
    second: Side<'a>,
    shown: Shown,
    out: &'r mut Out<'p, P>,
}

impl<P: Print + Eprint> Pair<'_, '_, '_, P> {
    // A row that is none counts as a watched access that differs.
    fn malformed_row(&mut self) {
        self.out.name(self.name);
        self.out.print("a row is malformed\n");
        self.out.pass_on();
        count(&mut self.shown.watched, true);
        count(&mut self.shown.differ, true);
    }

    // Tells a watched access that is not answered alike, or not as the cacheless walk.
    fn tell(&mut self, row: Row, first: &[u8], second: &[u8]) {
        let Row { one, two, walk } = row;
        self.out.name(self.name);
        self.out.print(format_args!("records {one} and {two}: "));
        self.out.part(first);
        self.out.print(" and ");
        self.out.part(second);
        self.out.print("; the cacheless walk: ");
        self.out.part(walk);
        self.out.print("\n");
        self.out.pass_on();
    }

    // One watched access: it is alike where both replays have it and answer it so.
    fn judge(&mut self, row: Row) {
        let first = self.first.answer(row.one);
        let second = self.second.answer(row.two);
        let same = sides::same_access(self.first, row.one, self.second, row.two);
        let alike = same && first.told == second.told;
        let walked = first.told == row.walk && second.told == row.walk;
        count(&mut self.shown.watched, true);
        count(&mut self.shown.alike, alike);
        count(&mut self.shown.walked, walked);
        count(&mut self.shown.counts, alike && first.count != second.count);
        if !(alike && walked) {
            count(&mut self.shown.differ, true);
            self.tell(row, first.told, second.told);
        }
    }

    // Every row after the heading, and then the pair's line.
    fn judge_all(&mut self, rows: &[u8]) {
        for line in rows.split_inclusive(|b| *b == b'\n') {
            match Row::of(line) {
                Some(row) => self.judge(row),
                None => self.malformed_row(),
            }
        }
        let Shown {
            watched,
            alike,
            walked,
            counts,
            ..
        } = self.shown;
        let first = self.first.record_count();
        let second = self.second.record_count();
        self.out.name(self.name);
        self.out.print(format_args!(
            "{watched} watched accesses among {first} and {second} records, "
        ));
        self.out.print(format_args!("{alike} alike, {walked} the cacheless walk's, "));
        self.out.print(format_args!("{counts} with other counts\n"));
    }
}

// What the rows show of a pair.
fn judged<'a, P: Print + Eprint>(
    name: &'a [u8],
    first: Side<'a>,
    second: Side<'a>,
    rows: &[u8],
    out: &mut Out<'_, P>,
) -> Shown {
    let mut pair = Pair {
        name,
        first,
        second,
        shown: Shown::default(),
        out,
    };
    pair.judge_all(rows);
    pair.shown
}

// ---- All pairs.

// The buffers that the files of a pair are read into.
#[derive(Clone, Copy)]
struct PairBuffers {
    first: Buffers,
    second: Buffers,
    rows: [u8; 4096],
}

// A file of a pair, by the end of its name, could not be read and played to its end.
#[derive(Clone, Copy)]
struct Failure {
    after: &'static str,
    why: Unplayed,
}

// All pairs so far: those that are steady, the others, and those that failed.
#[derive(Clone, Copy, Default)]
struct Tally {
    steady: Sum,
    other: Sum,
    failed: u64,
}

impl Tally {
    // Reads and plays both replays, reads the rows and judges the pair. The heading of a pair that is not steady says which
    // condition is broken.
    fn judge<P: Print + Eprint + Files>(
        &mut self,
        rt: &P,
        name: &[u8],
        buffers: &mut PairBuffers,
        out: &mut Out<'_, P>,
    ) -> Result<(), Failure> {
        let after = "_1.trace";
        let first = sides::play_named(rt, name, after, &mut buffers.first).map_err(|why| Failure {
            after,
            why,
        })?;
        let after = "_2.trace";
        let second = sides::play_named(rt, name, after, &mut buffers.second).map_err(|why| Failure {
            after,
            why,
        })?;
        let after = ".watched";
        let rows = files::read_named(rt, name, after, &mut buffers.rows).map_err(|why| Failure {
            after,
            why: Unplayed::Unheld(why),
        })?;
        let (heading, rows) = lines::split_line(rows);
        let shown = judged(name, first, second, rows, out);
        if heading == b"steady\n".as_slice() {
            self.steady.add(shown);
        } else {
            self.other.add(shown);
            out.name(name);
            out.part(heading);
            out.print("\n");
        }
        Ok(())
    }

    // The pair that an argument names. None: it names none.
    fn add<P: Print + Eprint + Files>(
        &mut self,
        rt: &P,
        name: Option<&[u8]>,
        buffers: &mut PairBuffers,
        out: &mut Out<'_, P>,
    ) {
        if let Some(name) = name {
            if let Err(Failure { after, why }) = self.judge(rt, name, buffers, out) {
                out.file(name, after);
                out.print(format_args!("{why}\n"));
                count(&mut self.failed, true);
            }
        } else {
            out.print("an argument is empty or too long\n");
            count(&mut self.failed, true);
        }
        out.pass_on();
    }
}

impl fmt::Display for Tally {
    fn fmt<W: fmt::Write>(&self, f: &mut fmt::Formatter<W>) -> fmt::Result {
        let Tally {
            steady,
            other,
            failed,
        } = *self;
        write!(f, "steady: {steady}\nnot steady: {other}\n")?;
        if failed != 0 {
            write!(f, "{failed} pairs failed\n")?;
        }
        Ok(())
    }
}

// Every pair that the arguments name; at last the steady pairs, and the others.
fn main(rt: HostRuntime) {
    let mut buffers = PairBuffers {
        first: Buffers::new(),
        second: Buffers::new(),
        rows: [0; 4096],
    };
    let mut out = Report::new(&rt);
    let mut tally = Tally::default();
    arguments::each(&rt, |name| tally.add(&rt, name, &mut buffers, &mut out));
    out.print(tally);
    out.show();
}
