// A run over a buffer: the records that stand in it whole, one after the other.
ghost use Rattle.std.specs.Prelude.{◌≡◌, ◌⊎◌, true, false, length, IfSome, IfNone, IfOk, OnOk, OnErr};
ghost use Rattle.definition.specs.Words.{any_of};
ghost use Rattle.definition.specs.Refusal.{crossed};
ghost use Rattle.definition.specs.Trace.{Short, Ended, front_of, record_of, is_malformed, step_of};
ghost use Rattle.replay.specs.Playing.{ranges_of, state_of, PlayedIn, Stands, RanIn};

use crate::{Kept, calls, settings};
use cache::atc030::Atc030;
use cache::atc040::Atc040;
use memory::ranges;
use trace::{Line, Malformed, Record};

// Why a run stopped: no whole record is left, the next one is malformed, or there is no room for a line.
#[derive(Clone, Copy)]
pub enum Why {
    Input,
    Malformed,
    Room,
}

// What is kept after a run, how many bytes it read and wrote, and why it stopped.
#[derive(Clone, Copy)]
pub struct Ran {
    pub kept: Kept,
    pub read: usize,
    pub wrote: usize,
    pub why: Why,
}

// Each record is a 2-byte length and its body: the body of the first one, and what is behind it. None where no whole record stands there.
fn front(bytes: &[u8]) -> Option<(&[u8], &[u8])>
    ensures whole { IfSome result (λ r. Stands bytes.now r.0.now r.1.now) }
    ensures none { IfNone result ((front_of bytes.now ≡ Short) ⊎ (front_of bytes.now ≡ Ended)) }
{
    let [high, low, rest @ ..] = bytes else {
        return None;
    };
    let length = u16::from_be_bytes([*high, *low]);
    let n = length as usize;
    if rest.len() < n {
        return None;
    }
    Some(rest.split_at(n))
}

// What one record does, and its line. `any_crossed` says whether a range that is kept is crossed: no record changes that.
fn played(
    c030: &mut Atc030,
    c040: &mut Atc040,
    longs: &mut [u32],
    kept: &mut Kept,
    any_crossed: bool,
    body: &[u8],
) -> Result<Line, Malformed>
    requires { any_crossed ≡ any_of crossed (ranges_of kept.old) }
    ensures ok { IfOk result (λ line. PlayedIn (step_of (state_of kept.old longs.old c030.old c040.old) (record_of body.now)) line kept.new longs.new c030.new c040.new) }
    ensures good { OnOk result (is_malformed (record_of body.now) ≡ false) }
    ensures bad { OnErr result (is_malformed (record_of body.now) ≡ true) }
    ensures stays { OnErr result (state_of kept.new longs.new c030.new c040.new ≡ state_of kept.old longs.old c030.old c040.old) }
    ensures none_crossed { any_of crossed (ranges_of kept.new) ≡ any_of crossed (ranges_of kept.old) }
{
    if let Some(a) = trace::look(body) {
        return Ok(calls::access_line(c030, c040, longs, kept, any_crossed, a));
    }
    match trace::decode(body)? {
        Record::Set(setting) => Ok(settings::set(longs, kept, setting)),
        Record::Call(call) => Ok(calls::make(c030, c040, longs, kept, any_crossed, call)),
    }
}

// Plays the whole records of `input` from its start on, with a line of `out` for each. Whether one of the ranges is crossed is asked once:
// no record changes that.
pub fn run(
    c030: &mut Atc030,
    c040: &mut Atc040,
    longs: &mut [u32],
    kept: Kept,
    input: &[u8],
    out: &mut [u8],
) -> Ran
    ensures { (RanIn (state_of kept longs.old c030.old c040.old) input.now out.old (state_of result.kept longs.new c030.new c040.new) result.read out.new result.wrote result.why) × (any_of crossed (ranges_of result.kept) ≡ any_of crossed (ranges_of kept)) }
{
    let any_crossed = ranges::any_crossed(kept.ranges.as_slice());
    let mut now = kept;
    let mut rest = input;
    let mut wrote: usize = 0;
    let why = loop {
        if out.len() - wrote < 44 {
            break Why::Room;
        }
        let Some((body, after)) = front(rest) else {
            break Why::Input;
        };
        let Ok(line) = played(c030, c040, longs, &mut now, any_crossed, body) else {
            break Why::Malformed;
        };
        wrote = trace::put_line(out, wrote, line);
        rest = after;
    };
    Ran {
        kept: now,
        read: input.len() - rest.len(),
        wrote,
        why,
    }
}
