// A report, of which a buffer holds what is not written yet.
use crate::text::Text;
use std::fmt::Display;

#[derive(Drop)]
pub struct Report<'a, P: Print + Eprint, const N: usize> {
    rt: &'a P,
    waits: Text<N>,
}

impl<'a, P: Print + Eprint, const N: usize> Report<'a, P, N> {
    pub fn new(rt: &'a P) -> Self {
        Report {
            rt,
            waits: Text::new(),
        }
    }

    // Adds bytes as they are.
    pub fn bytes(&mut self, bytes: &[u8]) {
        self.waits.push(bytes);
    }

    // Adds what a value prints.
    pub fn print<D: Display + Drop>(&mut self, value: D) {
        self.waits.print(value);
    }

    // Starts a line: a name and a colon.
    pub fn name(&mut self, name: &[u8]) {
        self.bytes(name);
        self.print(": ");
    }

    // Starts the line of a file that failed, whose name is `name` with `after` behind it.
    pub fn file(&mut self, name: &[u8], after: &str) {
        self.name(name);
        self.bytes(name);
        self.print(after);
        self.print(" ");
    }

    // Adds a part of a line, without its line's end; a dash where there is nothing.
    pub fn part(&mut self, part: &[u8]) {
        if part.is_empty() {
            self.bytes(b"-");
        }
        for piece in part.split(|b| *b == b'\n') {
            self.bytes(piece);
        }
    }

    // Writes what waits.
    pub fn show(&mut self) {
        let _ = streams::written(self.rt, self.waits.as_bytes());
        self.waits.clear();
    }

    // Writes what waits once it is half of the buffer or more.
    pub fn pass_on(&mut self) {
        if N / 2 <= self.waits.len() {
            self.show();
        }
    }
}
