// The calls that a record makes, each with the line that it prints.
ghost use Rattle.std.specs.Prelude.{◌≡◌};
ghost use Rattle.definition.specs.Memory.{memory};
ghost use Rattle.definition.specs.Calls.{access, loading, testing, probing, flushing_all, flushing_code, flushing_page, flushing_frame, translation_line, load_line, test_line, probe_line, flush_line};
ghost use Rattle.trace.specs.Lines.{line_in};
ghost use Rattle.trace.specs.Records.{call_in};
ghost use Rattle.cache.specs.Pair.{caches_of};
ghost use Rattle.replay.specs.Playing.{ranges_of, calling_given, CalledIn, Tests};

use crate::Kept;
use cache::atc030::Atc030;
use cache::atc040::Atc040;
use definition::{Access, Flush, Load, Probe, Test, Translation};
use trace::{Call, Line};

// A address count, or F kind cause address count.
fn translation_line(answer: Translation, count: u32) -> Line
    ensures { line_in result ≡ translation_line count answer }
{
    match answer {
        Translation::Address(address) => Line::A { address, count },
        Translation::Fault {
            kind,
            cause,
            address,
        } => Line::F {
            kind: definition::kind_number(kind),
            cause: definition::cause_number(cause),
            address,
            count,
        },
        Translation::Refused(number) => Line::R { number },
    }
}

// L count.
fn load_line(answer: Load, count: u32) -> Line
    ensures { line_in result ≡ load_line count answer }
{
    match answer {
        Load::Loaded => Line::L { count },
        Load::Refused(number) => Line::R { number },
    }
}

// T MMUSR address count.
fn test_line(answer: Test, count: u32) -> Line
    ensures { line_in result ≡ test_line count answer }
{
    match answer {
        Test::Status { mmusr, address } => Line::T {
            mmusr,
            address,
            count,
        },
        Test::Refused(number) => Line::R { number },
    }
}

// A address 0, or N.
fn probe_line(answer: Probe) -> Line
    ensures { line_in result ≡ probe_line answer }
{
    match answer {
        Probe::Address(address) => Line::A { address, count: 0 },
        Probe::Nothing => Line::N,
        Probe::Refused(number) => Line::R { number },
    }
}

// K.
fn flush_line(answer: Flush) -> Line
    ensures { line_in result ≡ flush_line answer }
{
    match answer {
        Flush::Flushed => Line::K,
        Flush::Refused(number) => Line::R { number },
    }
}

// An access. `crossed` is what the caller says of check 3: whether one of the ranges is crossed.
pub fn access_line(
    c030: &mut Atc030,
    c040: &mut Atc040,
    longs: &[u32],
    kept: &Kept,
    crossed: bool,
    a: Access,
) -> Line
    ensures { CalledIn (calling_given crossed kept.now.registers (memory longs.now 0 (ranges_of kept.now)) (caches_of c030.old c040.old) (access a)) result c030.new c040.new }
{
    let g = kept.registers;
    let ranges = kept.ranges.as_slice();
    let o = translate::translate(c030, c040, longs, 0, ranges, crossed, g, a);
    let answer = o.answer;
    translation_line(answer, o.count)
}

// A PLOAD. The 68040 cache stays.
fn load_call(
    c030: &mut Atc030,
    c040: &Atc040,
    longs: &[u32],
    kept: &Kept,
    crossed: bool,
    code: u32,
    write: bool,
    address: u32,
) -> Line
    ensures { CalledIn (calling_given crossed kept.now.registers (memory longs.now 0 (ranges_of kept.now)) (caches_of c030.old c040.now) (loading code write address)) result c030.new c040.now }
{
    let g = kept.registers;
    let ranges = kept.ranges.as_slice();
    let o = load::load(c030, longs, 0, ranges, crossed, g, code, write, address);
    let answer = o.answer;
    load_line(answer, o.count)
}

// A PTEST: no cache is touched.
fn test_call(
    longs: &[u32],
    kept: &Kept,
    crossed: bool,
    code: u32,
    write: bool,
    level: u32,
    address: u32,
) -> Line
    ensures { Tests crossed kept.now.registers (memory longs.now 0 (ranges_of kept.now)) code write level address result }
{
    let g = kept.registers;
    let ranges = kept.ranges.as_slice();
    let o = test::test(longs, 0, ranges, crossed, g, code, write, level, address);
    let answer = o.answer;
    test_line(answer, o.count)
}

// Makes a call that is no access: its line. `crossed` is what the caller says of check 3.
pub fn make(
    c030: &mut Atc030,
    c040: &mut Atc040,
    longs: &[u32],
    kept: &Kept,
    crossed: bool,
    call: Call,
) -> Line
    ensures { CalledIn (calling_given crossed kept.now.registers (memory longs.now 0 (ranges_of kept.now)) (caches_of c030.old c040.old) (call_in call)) result c030.new c040.new }
{
    match call {
        Call::Load {
            code,
            write,
            address,
        } => load_call(c030, c040, longs, kept, crossed, code, write, address),
        Call::Test {
            code,
            write,
            level,
            address,
        } => test_call(longs, kept, crossed, code, write, level, address),
        Call::FlushAll => {
            let answer = flush::flush_all_in(c030, c040);
            flush_line(answer)
        }
        Call::FlushCode { code, mask } => {
            let answer = flush::flush_code_in(c030, code, mask);
            flush_line(answer)
        }
        Call::FlushPage {
            code,
            mask,
            address,
        } => {
            let answer = flush::flush_page_in(c030, code, mask, address);
            flush_line(answer)
        }
        Call::FlushFrame { frame } => {
            let answer = flush::flush_frame_in(c040, frame);
            flush_line(answer)
        }
        Call::Probe {
            own,
            instruction,
            write,
            address,
        } => {
            let answer = probe::probe(c030, c040, kept.registers, own, instruction, write, address);
            probe_line(answer)
        }
    }
}
