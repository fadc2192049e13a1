// The trace: one record's body as the definition's record, and one line as its bytes.
#![tactic(auto)]

ghost use Rattle.std.specs.Prelude.{◌≡◌, ◌+◌, ◌%◌, ◌≤◌, ◌<◌, ◌++◌, length, IfOk, OnErr};
ghost use Rattle.definition.specs.Words.{bit_of};
ghost use Rattle.definition.specs.Trace.{be, override_of, kind01, kind02, kind03, kind04, kind05, kind06, kind07, kind08, kind09, kind0_a, kind0_b, record_of, hex_digit, hex, digit, decimal, spaced, newline, text, ending, opening};
ghost use Rattle.trace.specs.Records.{seen_of, other_of, record_in};
ghost use Rattle.trace.specs.Lines.{line_in, Wrote, RoomFor, Put};

use definition::{Access, Range, Registers, Root};

// A call that a record makes which is no access.
#[derive(Clone, Copy)]
pub enum Call {
    Load {
        code: u32,
        write: bool,
        address: u32,
    },
    Test {
        code: u32,
        write: bool,
        level: u32,
        address: u32,
    },
    FlushAll,
    FlushCode {
        code: u32,
        mask: u32,
    },
    FlushPage {
        code: u32,
        mask: u32,
        address: u32,
    },
    FlushFrame {
        frame: u32,
    },
    Probe {
        own: bool,
        instruction: bool,
        write: bool,
        address: u32,
    },
}

// What a record sets for the calls after it: the registers, a long of the tables, one more range.
#[derive(Clone, Copy)]
pub enum Setting {
    Registers(Registers),
    Long { address: u32, value: u32 },
    Range(Range),
}

// What a record's body says that is no access.
#[derive(Clone, Copy)]
pub enum Record {
    Call(Call),
    Set(Setting),
}

// A body that no record has.
#[derive(Clone, Copy)]
pub struct Malformed;

// A line of the output.
#[derive(Clone, Copy)]
pub enum Line {
    A {
        address: u32,
        count: u32,
    },
    F {
        kind: u32,
        cause: u32,
        address: u32,
        count: u32,
    },
    L {
        count: u32,
    },
    T {
        mmusr: u32,
        address: u32,
        count: u32,
    },
    K,
    N,
    R {
        number: u32,
    },
}

// Numbers are big-endian: the long at byte i.
fn long_at(b: &[u8], i: usize) -> u32
    requires { i + 4 ≤ length b.now }
    ensures { result ≡ be b.now i }
{
    u32::from_be_bytes([b[i], b[i + 1], b[i + 2], b[i + 3]])
}

// Bit k of the flags.
fn flag(flags: u8, k: u32) -> bool
    requires { k < 8 }
    ensures { result ≡ bit_of flags k }
{
    (flags >> k) % 2 == 1
}

// 01: family, flags (bit 0 PMMU, 1 enabled), the 11 longs in order.
fn registers_of(b: &[u8]) -> Result<Record, Malformed>
    ensures { record_in result ≡ kind01 b.now }
{
    if b.len() != 46 {
        return Err(Malformed);
    }
    let flags = b[1];
    if flags >= 4 {
        return Err(Malformed);
    }
    Ok(Record::Set(Setting::Registers(Registers {
        family: b[0] as u32,
        present: flag(flags, 0),
        enabled: flag(flags, 1),
        tc: long_at(b, 2),
        crp: Root {
            limit: long_at(b, 6),
            address: long_at(b, 10),
        },
        srp: Root {
            limit: long_at(b, 14),
            address: long_at(b, 18),
        },
        tt0: long_at(b, 22),
        tt1: long_at(b, 26),
        itt0: long_at(b, 30),
        itt1: long_at(b, 34),
        dtt0: long_at(b, 38),
        dtt1: long_at(b, 42),
    })))
}

// An override or FF.
fn override_of(n: u8) -> Option<u32>
    ensures { result ≡ override_of n }
{
    match n {
        255 => None,
        _ => Some(n as u32),
    }
}

// 02: flags (0 write, 1 supervisor, 2 instruction, 3 CPU state, 4 record), override or FF, address.
fn access_of(b: &[u8]) -> Option<Access>
    ensures { result ≡ seen_of (kind02 b.now) }
{
    if b.len() != 6 {
        return None;
    }
    let flags = b[0];
    if flags >= 32 {
        return None;
    }
    Some(Access {
        address: long_at(b, 2),
        write: flag(flags, 0),
        supervisor: flag(flags, 1),
        instruction: flag(flags, 2),
        own: flag(flags, 3),
        code: override_of(b[1]),
        recorded: flag(flags, 4),
    })
}

// A write byte: 0 or 1.
fn write_of(byte: u8) -> Result<bool, Malformed>
    ensures ok { IfOk result (λ write. (byte < 2) × (write ≡ bit_of byte 0)) }
    ensures err { OnErr result (2 ≤ byte) }
{
    match byte {
        0 => Ok(false),
        1 => Ok(true),
        _ => Err(Malformed),
    }
}

// 03: code, write 0/1, address.
fn load_of(b: &[u8]) -> Result<Record, Malformed>
    ensures { record_in result ≡ kind03 b.now }
{
    if b.len() != 6 {
        return Err(Malformed);
    }
    Ok(Record::Call(Call::Load {
        write: write_of(b[1])?,
        code: b[0] as u32,
        address: long_at(b, 2),
    }))
}

// 04: code, write, level, address.
fn test_of(b: &[u8]) -> Result<Record, Malformed>
    ensures { record_in result ≡ kind04 b.now }
{
    if b.len() != 7 {
        return Err(Malformed);
    }
    Ok(Record::Call(Call::Test {
        write: write_of(b[1])?,
        code: b[0] as u32,
        level: b[2] as u32,
        address: long_at(b, 3),
    }))
}

// 05: nothing.
fn flush_all_of(b: &[u8]) -> Result<Record, Malformed>
    ensures { record_in result ≡ kind05 b.now }
{
    if b.len() != 0 {
        return Err(Malformed);
    }
    Ok(Record::Call(Call::FlushAll))
}

// 06: code, mask.
fn flush_code_of(b: &[u8]) -> Result<Record, Malformed>
    ensures { record_in result ≡ kind06 b.now }
{
    if b.len() != 2 {
        return Err(Malformed);
    }
    Ok(Record::Call(Call::FlushCode {
        code: b[0] as u32,
        mask: b[1] as u32,
    }))
}

// 07: code, mask, address.
fn flush_page_of(b: &[u8]) -> Result<Record, Malformed>
    ensures { record_in result ≡ kind07 b.now }
{
    if b.len() != 6 {
        return Err(Malformed);
    }
    Ok(Record::Call(Call::FlushPage {
        code: b[0] as u32,
        mask: b[1] as u32,
        address: long_at(b, 2),
    }))
}

// 08: 040 frame, a long.
fn flush_frame_of(b: &[u8]) -> Result<Record, Malformed>
    ensures { record_in result ≡ kind08 b.now }
{
    if b.len() != 4 {
        return Err(Malformed);
    }
    Ok(Record::Call(Call::FlushFrame {
        frame: long_at(b, 0),
    }))
}

// 09: address, value.
fn store_of(b: &[u8]) -> Result<Record, Malformed>
    ensures { record_in result ≡ kind09 b.now }
{
    if b.len() != 8 {
        return Err(Malformed);
    }
    Ok(Record::Set(Setting::Long {
        address: long_at(b, 0),
        value: long_at(b, 4),
    }))
}

// 0A: range first, last.
fn range_of(b: &[u8]) -> Result<Record, Malformed>
    ensures { record_in result ≡ kind0_a b.now }
{
    if b.len() != 8 {
        return Err(Malformed);
    }
    Ok(Record::Set(Setting::Range(Range {
        first: long_at(b, 0),
        last: long_at(b, 4),
    })))
}

// 0B: flags (3 CPU state, 2 instruction, 0 write), address.
fn probe_of(b: &[u8]) -> Result<Record, Malformed>
    ensures { record_in result ≡ kind0_b b.now }
{
    if b.len() != 5 {
        return Err(Malformed);
    }
    let flags = b[0];
    if flags >= 16 || flag(flags, 1) {
        return Err(Malformed);
    }
    Ok(Record::Call(Call::Probe {
        own: flag(flags, 3),
        instruction: flag(flags, 2),
        write: flag(flags, 0),
        address: long_at(b, 1),
    }))
}

// The access that a body is, kind first, if it is one. Most records are: it is asked before all else, and an access is never a part of a `Record`,
// whose variants share their bytes.
pub fn look(body: &[u8]) -> Option<Access>
    ensures { result ≡ seen_of (record_of body.now) }
{
    let [kind, b @ ..] = body else {
        return None;
    };
    match *kind {
        2 => access_of(b),
        _ => None,
    }
}

// One record's body that is no access; an access is malformed here.
pub fn decode(body: &[u8]) -> Result<Record, Malformed>
    ensures { record_in result ≡ other_of (record_of body.now) }
{
    let [kind, b @ ..] = body else {
        return Err(Malformed);
    };
    match *kind {
        1 => registers_of(b),
        3 => load_of(b),
        4 => test_of(b),
        5 => flush_all_of(b),
        6 => flush_code_of(b),
        7 => flush_page_of(b),
        8 => flush_frame_of(b),
        9 => store_of(b),
        10 => range_of(b),
        11 => probe_of(b),
        0 | 2 | 12.. => Err(Malformed),
    }
}

// A byte string.
fn put(out: &mut [u8], at: usize, bytes: &[u8]) -> usize
    requires { at + length bytes.now ≤ length out.old }
    ensures { Wrote (length bytes.now) out.old at bytes.now out.new result }
{
    let end = at + bytes.len();
    out[at..end].copy_from_slice(bytes);
    end
}

// Digits by hand and not by `write!`: a line by a formatter takes 76 ns for 16 (plain Rust), where a whole access of a replay takes about 40.
// Hex is upper case: the low digit of n.
fn hex_digit(n: u32) -> u8
    ensures { result ≡ hex_digit (n % 16) }
{
    match (n % 16) as u8 {
        d @ 0..=9 => b'0' + d,
        d => b'A' + (d - 10),
    }
}

// The low four digits of n.
fn put_hex(out: &mut [u8], at: usize, n: u32) -> usize
    requires { at + 4 ≤ length out.old }
    ensures { Wrote 4 out.old at (hex 4 n) out.new result }
{
    let digits = [
        hex_digit(n >> 12),
        hex_digit(n >> 8),
        hex_digit(n >> 4),
        hex_digit(n),
    ];
    put(out, at, &digits)
}

// The low decimal digit of n.
fn decimal_digit(n: u32) -> u8
    ensures { result ≡ digit n }
{
    b'0' + (n % 10) as u8
}

// Counts are decimal.
fn put_decimal(out: &mut [u8], at: usize, n: u32) -> usize
    requires { at + length (decimal n) ≤ length out.old }
    ensures { Wrote 10 out.old at (decimal n) out.new result }
{
    if n < 10 {
        return put(out, at, &[decimal_digit(n)]);
    }
    let last = put_decimal(out, at, n / 10);
    put(out, last, &[decimal_digit(n)])
}

// A number after a space.
fn put_number(out: &mut [u8], at: usize, n: u32) -> usize
    requires { at + 11 ≤ length out.old }
    ensures { Wrote 11 out.old at (spaced (decimal n)) out.new result }
{
    let from = put(out, at, b" ");
    if n < 10 {
        return put(out, from, &[decimal_digit(n)]);
    }
    put_decimal(out, from, n)
}

// MMUSR after a space: four digits.
fn put_status(out: &mut [u8], at: usize, mmusr: u32) -> usize
    requires { at + 5 ≤ length out.old }
    ensures { Wrote 5 out.old at (spaced (hex 4 mmusr)) out.new result }
{
    let from = put(out, at, b" ");
    put_hex(out, from, mmusr)
}

// A count at the end of a line.
fn put_count(out: &mut [u8], at: usize, count: u32) -> usize
    requires { at + 12 ≤ length out.old }
    ensures { Wrote 12 out.old at (spaced (decimal count) ++ newline) out.new result }
{
    let end = put_number(out, at, count);
    put(out, end, b"\n")
}

// An address, eight digits, and a count at the end of a line.
fn put_address(out: &mut [u8], at: usize, address: u32, count: u32) -> usize
    requires { at + 21 ≤ length out.old }
    ensures { Wrote 21 out.old at (spaced (hex 8 address) ++ spaced (decimal count) ++ newline) out.new result }
{
    let high = put(out, at, b" ");
    let low = put_hex(out, high, address >> 16);
    let end = put_hex(out, low, address);
    put_count(out, end, count)
}

// A line's text.
fn put_text(out: &mut [u8], at: usize, line: Line) -> usize
    requires { at + 44 ≤ length out.old }
    ensures { Wrote 44 out.old at (text (line_in line)) out.new result }
{
    match line {
        Line::A { address, count } => {
            let next = put(out, at, b"A");
            put_address(out, next, address, count)
        }
        Line::F {
            kind,
            cause,
            address,
            count,
        } => {
            let next = put(out, at, b"F");
            let after = put_number(out, next, kind);
            let last = put_number(out, after, cause);
            put_address(out, last, address, count)
        }
        Line::L { count } => {
            let next = put(out, at, b"L");
            put_count(out, next, count)
        }
        Line::T {
            mmusr,
            address,
            count,
        } => {
            let next = put(out, at, b"T");
            let last = put_status(out, next, mmusr);
            put_address(out, last, address, count)
        }
        Line::K => {
            let next = put(out, at, b"K");
            put(out, next, b"\n")
        }
        Line::N => {
            let next = put(out, at, b"N");
            put(out, next, b"\n")
        }
        Line::R { number } => {
            let next = put(out, at, b"R");
            put_count(out, next, number)
        }
    }
}

// Whether n bytes have room from `at` on.
pub fn has_room(out: &[u8], at: usize, n: usize) -> bool
    ensures { RoomFor (length out.now) at n result }
{
    if out.len() < n {
        return false;
    }
    at <= out.len() - n
}

// A line from the place `at` on, where 44 bytes have room there; the result is the place after it. Where they have none, nothing is written.
pub fn put_line(out: &mut [u8], at: usize, line: Line) -> usize
    ensures { Put 44 out.old at (text (line_in line)) out.new result }
{
    if has_room(out, at, 44) {
        return put_text(out, at, line);
    }
    at
}

// A byte string, where it has room.
fn put_whole(out: &mut [u8], at: usize, bytes: &[u8]) -> usize
    ensures { Put (length bytes.now) out.old at bytes.now out.new result }
{
    if has_room(out, at, bytes.len()) {
        return put(out, at, bytes);
    }
    at
}

// The line that follows a good version byte, where it has room.
pub fn put_version(out: &mut [u8], at: usize) -> usize
    ensures { Put 3 out.old at opening out.new result }
{
    put_whole(out, at, b"v1\n")
}

// The last line of a run that was not stopped, where it has room.
pub fn put_end(out: &mut [u8], at: usize) -> usize
    ensures { Put 4 out.old at ending out.new result }
{
    put_whole(out, at, b"end\n")
}
