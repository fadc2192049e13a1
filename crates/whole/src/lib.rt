// A whole trace in memory, from the state that a replay starts from.
#![tactic(auto)]

ghost use Rattle.std.specs.Prelude.{◌++◌, take};
ghost use Rattle.definition.specs.Trace.{first_state, play_from, play as Trace·play};
ghost use Rattle.whole.specs.Shown.{Shows, refused, finished, Closes};

use replay::run::Why;
use trace::Line;

// There was no room for the lines.
#[derive(Clone, Copy)]
pub struct NoRoom;

// Refusal 7, the last line.
fn malformed(out: &mut [u8], at: usize) -> Result<usize, NoRoom>
    ensures { Shows (take at out.old ++ refused) out.new result }
{
    if !trace::has_room(out, at, 44) {
        return Err(NoRoom);
    }
    Ok(trace::put_line(out, at, Line::R { number: 7 }))
}

// At the end of the trace: `end`, or refusal 7 where a part of a record is left.
fn finish(out: &mut [u8], at: usize, left: usize) -> Result<usize, NoRoom>
    ensures { Shows (take at out.old ++ finished left) out.new result }
{
    if left != 0 {
        return malformed(out, at);
    }
    if !trace::has_room(out, at, 44) {
        return Err(NoRoom);
    }
    Ok(trace::put_end(out, at))
}

// The last line, after a run that left so many bytes.
fn last_line(out: &mut [u8], at: usize, why: Why, left: usize) -> Result<usize, NoRoom>
    ensures { Closes why left out.old at out.new result }
{
    match why {
        Why::Input => finish(out, at, left),
        Why::Malformed => malformed(out, at),
        Why::Room => Err(NoRoom),
    }
}

// Plays the records of a trace, what comes after its version byte.
fn play_records(bytes: &[u8], out: &mut [u8]) -> Result<usize, NoRoom>
    ensures { Shows (play_from first_state bytes.now) out.new result }
{
    let mut c030 = [0u64; 69];
    let mut c040 = [0u64; 128];
    let mut longs = [0u32; 8192];
    let ran = replay::run::run(
        &mut c030,
        &mut c040,
        &mut longs,
        replay::first(),
        bytes,
        out,
    );
    last_line(out, ran.wrote, ran.why, bytes.len() - ran.read)
}

// Plays a trace: the version's line, the records' lines and the last line. It gives how many bytes at the start of the output they are.
pub fn play(bytes: &[u8], out: &mut [u8]) -> Result<usize, NoRoom>
    ensures { Shows (Trace·play bytes.now) out.new result }
{
    let [version, records @ ..] = bytes else {
        return malformed(out, 0);
    };
    if *version != 1 {
        return malformed(out, 0);
    }
    if out.len() < 3 {
        return Err(NoRoom);
    }
    trace::put_version(out, 0);
    let n = play_records(records, &mut out[3..])?;
    Ok(n + 3)
}
