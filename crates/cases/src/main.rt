// Replays the stored traces of data/ record by record, and compares every line, and both caches after each record, with the
// original Rust's (differential/README.md, 'Stored cases').
// The arguments name the cases: NAME.trace is the trace, and NAME.states has the original's lines and state lines.
#![tactic(auto)]

use replay::run::Why;
use states::State;
use std::fmt;
use std::rt::Files;
use stored::files::Unheld;
use stored::report::Report;
use stored::text::Text;
use stored::{arguments, files, lines};
use trace::Line;

type Out<'a, P> = Report<'a, P, 16384>;

// What was compared so far: lines, state lines, and how many of both differ.
#[derive(Clone, Copy, Default)]
struct Counts {
    lines: u64,
    states: u64,
    differ: u64,
}

impl Counts {
    // Both together.
    fn with(self, other: Counts) -> Counts {
        Counts {
            lines: self.lines.wrapping_add(other.lines),
            states: self.states.wrapping_add(other.states),
            differ: self.differ.wrapping_add(other.differ),
        }
    }
}

impl fmt::Display for Counts {
    fn fmt<W: fmt::Write>(&self, f: &mut fmt::Formatter<W>) -> fmt::Result {
        let Counts {
            lines,
            states,
            differ,
        } = *self;
        write!(f, "{lines} lines, {states} states, {differ} differ")
    }
}

// ---- The lines of a case.

// One case so far: what was compared, and what is still expected.
#[derive(Drop)]
struct Comparison<'a, 'r, 'p, P: Print + Eprint> {
    name: &'a [u8],
    expected: &'a [u8],
    counts: Counts,
    out: &'r mut Out<'p, P>,
}

impl<P: Print + Eprint> Comparison<'_, '_, '_, P> {
    // Tells a line that differs, by its number in NAME.states, from 1.
    fn tell(&mut self, played: &[u8], expected: &[u8]) {
        let number = self.counts.lines.wrapping_add(self.counts.states);
        self.out.bytes(self.name);
        self.out.print(format_args!(" line {number}: "));
        self.out.part(played);
        self.out.print("; the original: ");
        self.out.part(expected);
        self.out.print("\n");
        self.out.pass_on();
    }

    // Compares a line with the next one expected. The first five of a case that differ are told.
    fn judge(&mut self, played: &[u8]) {
        let (expected, rest) = lines::split_line(self.expected);
        self.expected = rest;
        if played != expected {
            if self.counts.differ < 5 {
                self.tell(played, expected);
            }
            self.counts.differ = self.counts.differ.wrapping_add(1);
        }
    }

    // A record's line, or the frame's.
    fn line(&mut self, played: &[u8]) {
        self.counts.lines = self.counts.lines.wrapping_add(1);
        self.judge(played);
    }

    // The caches after a record.
    fn state(&mut self, played: &[u8]) {
        self.counts.states = self.counts.states.wrapping_add(1);
        self.judge(played);
    }

    // The last line. If more lines are expected, the first of them is told.
    fn last_line(&mut self, played: &[u8]) {
        self.line(played);
        if !self.expected.is_empty() {
            self.line(b"");
        }
    }

    // Refusal 7, the last line.
    fn malformed(&mut self) {
        let mut line = [0u8; 44];
        let n = trace::put_line(&mut line, 0, Line::R { number: 7 });
        self.last_line(&line[..n]);
    }

    // At the end of the trace: `end`, or refusal 7 where a part of a record is left.
    fn finished(&mut self, left: &[u8]) {
        if !left.is_empty() {
            return self.malformed();
        }
        let mut line = [0u8; 44];
        let n = trace::put_end(&mut line, 0);
        self.last_line(&line[..n]);
    }

    // Plays the records one by one: a run has room for one line, since a line is written where 44 bytes have room, and has two or
    // more.
    fn records(&mut self, records: &[u8]) {
        let mut c030 = [0u64; 69];
        let mut c040 = [0u64; 128];
        let mut longs = [0u32; 8192];
        let mut line = [0u8; 45];
        let mut state = Text::<4096>::new();
        let mut kept = replay::first();
        let mut rest = records;
        for _ in 0..u64::MAX {
            let ran = replay::run::run(&mut c030, &mut c040, &mut longs, kept, rest, &mut line);
            kept = ran.kept;
            rest = &rest[ran.read..];
            match ran.why {
                Why::Room => {
                    self.line(&line[..ran.wrote]);
                    let caches = State {
                        c030: &c030,
                        c040: &c040,
                    };
                    state.clear();
                    state.print(format_args!("{caches}\n"));
                    self.state(state.as_bytes());
                }
                Why::Input => {
                    return self.finished(rest);
                }
                Why::Malformed => {
                    return self.malformed();
                }
            }
        }
    }

    // Plays the trace: the version's line, the records and the last line.
    fn play(&mut self, trace: &[u8]) {
        let Some((1, records)) = trace.split_first() else {
            return self.malformed();
        };
        let mut line = [0u8; 44];
        let n = trace::put_version(&mut line, 0);
        self.line(&line[..n]);
        self.records(records);
    }
}

// ---- A case.

// The buffers that the two files of a case are read into.
#[derive(Clone, Copy)]
struct Buffers {
    trace: [u8; 4096],
    expected: [u8; 65536],
}

// A file of a case, by the end of its name, gave no bytes.
#[derive(Clone, Copy)]
struct Missing {
    after: &'static str,
    why: Unheld,
}

// Reads both files of a case, plays the trace and compares.
fn compared<P: Print + Eprint + Files>(
    rt: &P,
    name: &[u8],
    buffers: &mut Buffers,
    out: &mut Out<'_, P>,
) -> Result<Counts, Missing> {
    let after = ".trace";
    let trace = files::read_named(rt, name, after, &mut buffers.trace).map_err(|why| Missing {
        after,
        why,
    })?;
    let after = ".states";
    let expected = files::read_named(rt, name, after, &mut buffers.expected).map_err(|why| Missing {
        after,
        why,
    })?;
    let mut c = Comparison {
        name,
        expected,
        counts: Counts::default(),
        out,
    };
    c.play(trace);
    Ok(c.counts)
}

// ---- All cases.

// The cases so far: what was compared, and how many could not be.
#[derive(Clone, Copy, Default)]
struct Tally {
    cases: u64,
    counts: Counts,
    failed: u64,
}

impl Tally {
    // The case could not be compared.
    fn fail(&mut self) {
        self.failed = self.failed.wrapping_add(1);
    }

    // The case that an argument names. None: it names none.
    fn add<P: Print + Eprint + Files>(
        &mut self,
        rt: &P,
        name: Option<&[u8]>,
        buffers: &mut Buffers,
        out: &mut Out<'_, P>,
    ) {
        self.cases = self.cases.wrapping_add(1);
        if let Some(name) = name {
            match compared(rt, name, buffers, out) {
                Ok(counts) => {
                    out.name(name);
                    out.print(format_args!("{counts}\n"));
                    self.counts = self.counts.with(counts);
                }
                Err(Missing { after, why }) => {
                    out.file(name, after);
                    out.print(format_args!("{why}\n"));
                    self.fail();
                }
            }
        } else {
            out.print("an argument is empty or too long\n");
            self.fail();
        }
        out.pass_on();
    }
}

impl fmt::Display for Tally {
    fn fmt<W: fmt::Write>(&self, f: &mut fmt::Formatter<W>) -> fmt::Result {
        let Tally {
            cases,
            counts,
            failed,
        } = *self;
        write!(f, "{cases} cases, {counts}")?;
        if failed != 0 {
            write!(f, ", {failed} cases failed")?;
        }
        Ok(())
    }
}

// Every case that the arguments name; at last all cases, their lines, and how many of these differ.
fn main(rt: HostRuntime) {
    let mut buffers = Buffers {
        trace: [0; 4096],
        expected: [0; 65536],
    };
    let mut out = Report::new(&rt);
    let mut tally = Tally::default();
    arguments::each(&rt, |name| tally.add(&rt, name, &mut buffers, &mut out));
    out.print(format_args!("{tally}\n"));
    out.show();
}
