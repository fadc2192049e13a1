// Each refusal alone, each two neighbours of the order 1, 6, 5, 2, 3, 4, and what is just not refused.
use crate::setting;
use crate::setting::{Given, Trial};
use cache::atc030::{Atc030, RECENT, SHIFT};
use cache::atc040::Atc040;
use definition::{Flush, Load, Probe, Test, Translation};
use std::io;

// ---- What stays.

// A 68030 cache with every number 3 but the most recent index and the shift.
fn threes_030(t: Trial) -> Atc030 {
    let mut c030 = [3u64; 69];
    c030[RECENT] = t.recent;
    c030[SHIFT] = t.shift;
    c030
}

// A 68040 cache with every number 3.
const THREES_040: Atc040 = [3; 128];

// ---- Load: 1, 6, 5, 2, 3, 4.

// A load of logical 02041ABC.
fn load(t: Trial) -> Given {
    let mut c030 = threes_030(t);
    let longs = setting::tree();
    let r = load::load(
        &mut c030,
        &longs,
        t.base,
        &[t.range()],
        t.is_crossed(),
        t.registers(),
        t.code,
        false,
        0x0204_1ABC,
    );
    Given {
        refusal: match r.answer {
            Load::Loaded => None,
            Load::Refused(n) => Some(n),
        },
        kept: c030 == threes_030(t) && r.count == 0,
    }
}

// ---- Translate: 1, 5, 2, 3, 4.

// A recorded read of logical 02041ABC under the code as an override.
fn translate(t: Trial) -> Given {
    let mut c030 = threes_030(t);
    let mut c040 = THREES_040;
    let longs = setting::tree();
    let r = translate::translate(
        &mut c030,
        &mut c040,
        &longs,
        t.base,
        &[t.range()],
        t.is_crossed(),
        t.registers(),
        setting::access(Some(t.code), false, true),
    );
    Given {
        refusal: match r.answer {
            Translation::Address(_) | Translation::Fault { .. } => None,
            Translation::Refused(n) => Some(n),
        },
        kept: c030 == threes_030(t) && c040 == THREES_040 && r.count == 0,
    }
}

// ---- Test: 1, 6, 5, 2, 3.

// A test of logical 02041ABC at a level. It takes no cache.
fn test(t: Trial) -> Given {
    let longs = setting::tree();
    let r = test::test(
        &longs,
        t.base,
        &[t.range()],
        t.is_crossed(),
        t.registers(),
        t.code,
        false,
        t.level,
        0x0204_1ABC,
    );
    Given {
        refusal: match r.answer {
            Test::Status { .. } => None,
            Test::Refused(n) => Some(n),
        },
        kept: r.count == 0,
    }
}

// ---- Probe: 1, 4. It changes no cache: it is lent none to change.

// A probe of logical 02041ABC.
fn probe(t: Trial) -> Given {
    let c030 = threes_030(t);
    let answer = probe::probe(
        &c030,
        &THREES_040,
        t.registers(),
        false,
        false,
        false,
        0x0204_1ABC,
    );
    Given {
        refusal: match answer {
            Probe::Address(_) | Probe::Nothing => None,
            Probe::Refused(n) => Some(n),
        },
        kept: true,
    }
}

// ---- The flushes: 5, 4.

// What a flush gave.
fn flushed(answer: Flush, kept: bool) -> Given {
    Given {
        refusal: match answer {
            Flush::Flushed => None,
            Flush::Refused(n) => Some(n),
        },
        kept,
    }
}

// The flush of all.
fn flush_all(t: Trial) -> Given {
    let mut c030 = threes_030(t);
    let mut c040 = THREES_040;
    let answer = flush::flush_all_in(&mut c030, &mut c040);
    flushed(answer, c030 == threes_030(t) && c040 == THREES_040)
}

// The flush by code and mask.
fn flush_code(t: Trial) -> Given {
    let mut c030 = threes_030(t);
    let answer = flush::flush_code_in(&mut c030, t.code, t.mask);
    flushed(answer, c030 == threes_030(t))
}

// The flush by code, mask and the page of address 0, which the entries have.
fn flush_page(t: Trial) -> Given {
    let mut c030 = threes_030(t);
    let answer = flush::flush_page_in(&mut c030, t.code, t.mask, 0);
    flushed(answer, c030 == threes_030(t))
}

// The flush of a 68040 frame.
fn flush_frame(frame: u32) -> Given {
    let mut c040 = THREES_040;
    let answer = flush::flush_frame_in(&mut c040, frame);
    flushed(answer, c040 == THREES_040)
}

// ---- The lines.

// Writes a line of loads, from what none refuses: those that meet one number alone, 1 6 5 2 2 3 4 4; then those that meet two
// neighbours, of which the first is given, 1 6 5 2 3. No family is both 1 and 6, so 1 stands with 5.
fn load_line<P: Print>(rt: &P, t: Trial) -> io::Result<()> {
    let one_number = [
        t.one(),
        t.six(),
        t.five(),
        t.two(),
        t.two_high(),
        t.three(),
        t.four(),
        t.four_shift(),
    ];
    let two_numbers = [
        t.five().one(),
        t.five().six(),
        t.two().five(),
        t.three().two(),
        t.four().three(),
    ];
    setting::show(rt, load, &one_number)?;
    print!(rt; " |")?;
    setting::show(rt, load, &two_numbers)?;
    println!(rt; "")
}

// Loads, with the PMMU on and off.
pub fn loads<P: Print>(rt: &P) -> io::Result<()> {
    let t = Trial::fit();
    print!(rt; "load")?;
    load_line(rt, t)?;
    print!(rt; "load, off")?;
    load_line(rt, t.off())
}

// Writes a line of translations, from what none refuses: one number alone, 1 5 2 2 3 4 4, since 6 is not theirs; two neighbours,
// 1 5 2 3, and on family 40 number 4 applies too: 4.
fn translate_line<P: Print>(rt: &P, t: Trial) -> io::Result<()> {
    let one_number = [
        t.one(),
        t.five(),
        t.two(),
        t.two_high(),
        t.three(),
        t.four(),
        t.four_shift(),
    ];
    let two_numbers = [
        t.five().one(),
        t.two().five(),
        t.three().two(),
        t.four().three(),
        t.four().six(),
    ];
    setting::show(rt, translate, &one_number)?;
    print!(rt; " |")?;
    setting::show(rt, translate, &two_numbers)?;
    println!(rt; "")
}

// Translations, with the PMMU on and off.
pub fn translations<P: Print>(rt: &P) -> io::Result<()> {
    let t = Trial::fit();
    print!(rt; "translate")?;
    translate_line(rt, t)?;
    print!(rt; "translate, off")?;
    translate_line(rt, t.off())
}

// Writes a line of tests: one number alone, 1 6 5 5 2 2 3, the second 5 by its level; two neighbours, 1 6 5 2. They take no cache,
// so a bad one is nothing to them: 0. With the PMMU off: 6 5.
pub fn tests<P: Print>(rt: &P) -> io::Result<()> {
    let t = Trial::fit();
    let one_number = [
        t.one(),
        t.six(),
        t.five(),
        t.at(8),
        t.two(),
        t.two_high(),
        t.three(),
    ];
    let two_numbers = [
        t.five().one().at(7),
        t.five().six().at(7),
        t.two().five().at(7),
        t.three().two().at(7),
        t.four(),
        t.off().six().at(7),
        t.off().at(8),
    ];
    print!(rt; "test")?;
    setting::show(rt, test, &one_number)?;
    print!(rt; " |")?;
    setting::show(rt, test, &two_numbers)?;
    println!(rt; "")
}

// Probes: 1 and 4, and off. Memory and codes are nothing to them. Alone: 1 4 4. Of two: 1. Off: 1 4. Spoilt in what it doesn't
// take: 0.
pub fn probes<P: Print>(rt: &P) -> io::Result<()> {
    let t = Trial::fit();
    let trials = [
        t.one(),
        t.four(),
        t.four_shift(),
        t.four().one(),
        t.off().one(),
        t.off().four(),
        t.three().two().five(),
    ];
    print!(rt; "probe")?;
    setting::show(rt, probe, &trials)?;
    println!(rt; "")
}

// Writes a line of flushes. Of all: 4 4. By code: 5 5 4, of two 5; code and mask 7 are taken, and no entry of code 1 goes: 0. By
// page: 5 5 4, of two 5. Of frame 2^20: 5; frame FFFFF is taken, and no slot of frame 0 goes: 0. Then those that none refuses, and
// each drops what the caches have: 0! four times.
pub fn flushes<P: Print>(rt: &P) -> io::Result<()> {
    let t = Trial::fit();
    let trials = [
        t.five(),
        t.five_mask(),
        t.four(),
        t.four().five(),
        t.largest(),
    ];
    print!(rt; "flush")?;
    setting::show(rt, flush_all, &[t.four(), t.four_shift()])?;
    print!(rt; " |")?;
    setting::show(rt, flush_code, &trials)?;
    print!(rt; " |")?;
    setting::show(rt, flush_page, &trials[..4])?;
    print!(rt; " |{}{}", flush_frame(0x10_0000), flush_frame(0xF_FFFF))?;
    print!(rt; " |")?;
    setting::show(rt, flush_all, &[t])?;
    setting::show(rt, flush_code, &[t])?;
    setting::show(rt, flush_page, &[t])?;
    println!(rt; "{}", flush_frame(0))
}

// What is just not refused, with the PMMU off, where nothing changes: 0 each.
pub fn largest_taken<P: Print>(rt: &P) -> io::Result<()> {
    let t = Trial::fit().largest().off();
    println!(rt; "largest{}{}{}{}", load(t), translate(t), test(t), probe(t))
}
