// What the table tree of a dump maps: a line for each range, FIRST-LAST PHYSICAL flags, and a last line that counts them.
// The program's arguments are the function code, in decimal, and the address to start at, in hex.
#![tactic(auto)]

use definition::{Listed, Range, Registers};
use std::env::Env;
use std::fmt;
use std::fmt::{Display, Formatter, Write};
use streams::hex::eight;
use streams::text::Text;
use streams::{Unwritten, printed, written};

// ---- The arguments.

// A number by its digits, mod 2^32; a byte that is no digit counts as 0.
fn value(text: &[u8], base: u32) -> u32 {
    text.iter().fold(0u32, |x, b| {
        let digit = char::from(*b).to_digit(16).unwrap_or(0);
        x.wrapping_mul(base).wrapping_add(digit)
    })
}

// Argument i as a number: 0 where it is missing.
fn argument<H: Env>(rt: &H, i: usize, base: u32) -> u32 {
    let mut text = [0u8; 16];
    match rt.arg(i, &mut text) {
        Ok(n) => value(&text[..n], base),
        Err(_) => 0,
    }
}

// What the arguments ask for.
#[derive(Clone, Copy)]
pub struct Asked {
    pub code: u32,
    pub from: u32,
}

impl Asked {
    pub fn read<H: Env>(rt: &H) -> Self {
        Asked {
            code: argument(rt, 1, 10),
            from: argument(rt, 2, 16),
        }
    }
}

// ---- The lines.

// A range of the list, as its number says it: the first address above, the page's upper bits below, and in the last byte 33 times
// the kind and how many bits of an address the tables took. The number is the host's too (`host_list`).
#[derive(Clone, Copy)]
struct Mapped(u64);

impl Mapped {
    // How many addresses it has.
    fn size(self) -> u64 {
        1 << (32 - (self.0 % 256 % 33) as u32)
    }

    // 0 a page, 1 with WP, 2 with S, 3 with both; 4 and above a range whose descriptor can't be fetched.
    fn kind(self) -> u64 {
        self.0 % 256 / 33
    }

    // How many addresses it maps.
    fn bytes(self) -> u64 {
        if self.kind() < 4 { self.size() } else { 0 }
    }

    // Puts its line straight to where it is written from: through a `Display` of its own a long list took 1.2 times as long.
    fn put(self, lines: &mut Text<8192>) {
        let first = self.0 >> 32;
        let last = first.wrapping_add(self.size()).wrapping_sub(1);
        lines.push(&eight(first));
        lines.push(b"-");
        lines.push(&eight(last));
        lines.push(b" ");
        if self.kind() < 4 {
            lines.push(&eight(self.0 / 256 * 256));
        }
        lines.push(match self.kind() {
            0 => b" -\n",
            1 => b" W\n",
            2 => b" S\n",
            3 => b" WS\n",
            4.. => b"unfetchable\n",
        });
    }
}

// Writes a line for each of at most 256, at once: a line has 30 bytes.
fn told<H: Print + Eprint>(
    rt: &H,
    lines: &mut Text<8192>,
    ranges: &[u64],
) -> Result<(), Unwritten> {
    lines.clear();
    for x in ranges {
        Mapped(*x).put(lines);
    }
    written(rt, lines.as_bytes())
}

// ---- The list.

// What was listed so far.
#[derive(Clone, Copy)]
struct Sum {
    ranges: u64,
    bytes: u64,
}

impl Sum {
    // With these beside.
    fn with(self, found: &[u64]) -> Self {
        let bytes = found
            .iter()
            .fold(self.bytes, |sum, x| sum.wrapping_add(Mapped(*x).bytes()));
        Sum {
            ranges: self.ranges.wrapping_add(found.len() as u64),
            bytes,
        }
    }
}

impl Display for Sum {
    fn fmt<W: Write>(&self, f: &mut Formatter<W>) -> fmt::Result {
        let Sum { ranges, bytes } = *self;
        write!(f, "{ranges} ranges, {bytes} bytes mapped")
    }
}

// The ranges of what is kept as numbers, two for each.
fn numbers_of(ranges: &[Range]) -> [u32; 32] {
    let mut numbers = [0u32; 32];
    for (pair, range) in numbers.chunks_exact_mut(2).zip(ranges) {
        pair[0] = range.first;
        pair[1] = range.last;
    }
    numbers
}

// Lists the tree of registers, longs at 0 and at most sixteen ranges, as many mapped ranges at a time as `found` has room for.
pub fn listed<H: Print + Eprint>(
    rt: &H,
    longs: &[u32],
    g: Registers,
    ranges: &[Range],
    asked: Asked,
) -> Result<(), Unwritten> {
    if ranges.len() > 16 {
        return Ok(());
    }
    let numbers = numbers_of(ranges);
    let pairs = &numbers[..2 * ranges.len()];
    let mut found = [0u64; 256];
    let mut lines = Text::new();
    let mut sum = Sum {
        ranges: 0,
        bytes: 0,
    };
    let mut from = asked.from;
    for _ in 0..u64::MAX {
        match list::list(longs, 0, pairs, g, asked.code, from, &mut found) {
            Listed::All(n) => {
                let last = found.get(..n).unwrap_or(&[]);
                let _ = told(rt, &mut lines, last);
                sum = sum.with(last);
                return printed(rt, format_args!("{sum}\n"));
            }
            Listed::More { count, next } => {
                let some = found.get(..count).unwrap_or(&[]);
                told(rt, &mut lines, some)?;
                sum = sum.with(some);
                from = next;
            }
            Listed::Refused(number) => return printed(rt, format_args!("R {number}\n")),
        }
    }
    Ok(())
}
