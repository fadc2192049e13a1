// The driver of the players and of the auditors: standard input through a buffer, and what a program writes of each record and at
// the end. It is proved that of the bytes that stand in the buffer no record is lost and none is played twice.
#![tactic(auto)]

mod lines;
mod state;

ghost use Rattle.std.specs.Prelude.{◌≤◌, length, OnOk, IfOk};
ghost use Rattle.playing.specs.Driving.{state_in, bytes_in, Went, Waits, Turned};

pub use lines::{Lines, States};
use replay::run::{Ran, Why};
pub use state::Replay;
use state::Waiting;
use std::io::Read;
use streams::text::Text;
use streams::{Unwritten, written};

// It is over, and what there was to say is said.
#[derive(Clone, Copy)]
pub struct Over;

impl From<Unwritten> for Over {
    fn from(_unwritten: Unwritten) -> Self {
        Over
    }
}

// Where a program puts together what it writes at once. It is lent, since a new one costs its size for each record.
pub type Sheet = Text<16384>;

// What a program makes of a trace. On the sheet that it is lent stands what was put there last.
pub trait Watch {
    // Whether it is told of each record. Then the records are played one by one.
    const EACH: bool;

    // Lines of the replay, the version's first.
    fn lines<H: Print + Eprint>(&mut self, _rt: &H, _lines: &[u8]) -> Result<(), Over> {
        Ok(())
    }

    // After a record that printed its line.
    fn record<H: Print + Eprint>(
        &mut self,
        _rt: &H,
        _replay: &Replay,
        _sheet: &mut Sheet,
    ) -> Result<(), Over> {
        Ok(())
    }

    // At the end of the trace.
    fn end<H: Print + Eprint>(
        &mut self,
        rt: &H,
        replay: &Replay,
        sheet: &mut Sheet,
    ) -> Result<(), Over>;
}

// Refusal 7: the last line.
fn malformed<H: Print + Eprint>(rt: &H) -> Over {
    let _ = written(rt, b"R 7\n");
    Over
}

// Says on standard error that a read failed.
fn unread<H: Eprint>(rt: &H) -> Over {
    let _ = rt.eprintln("player: a read failed");
    Over
}

// A program over what it is told of the trace: the state, and the lines of a run; and the program's sheet.
#[derive(Drop)]
struct Driver<W> {
    watch: W,
    replay: Replay,
    out: [u8; 65536],
    sheet: Sheet,
}

// How many bytes a run may write. Where each record is told it is one line: a line is written where 44 bytes have room, and has two or more.
const fn room<W: Watch>() -> usize
    ensures { result ≤ 65536 }
{
    if W::EACH { 45 } else { 65536 }
}

impl<W: Watch> Driver<W> {
    // One run over waiting bytes, told to the program.
    fn run<H: Print + Eprint>(&mut self, rt: &H, input: &[u8]) -> Result<Ran, Over>
        ensures within { IfOk result (λ ran. ran.read ≤ length input.now) }
        ensures went { IfOk result (λ ran. Went (state_in self.old.replay) input.now (state_in self.new.replay) ran.read) }
    {
        let ran = self.replay.run(input, &mut self.out, room::<W>());
        self.watch.lines(rt, &self.out[..ran.wrote])?;
        if W::EACH && ran.wrote > 0 {
            self.watch.record(rt, &self.replay, &mut self.sheet)?;
        }
        Ok(ran)
    }

    // Plays the waiting bytes as far as whole records stand there.
    fn drain<H: Print + Eprint>(&mut self, rt: &H, waiting: &mut Waiting) -> Result<(), Over>
        ensures { Waits result (state_in self.old.replay) (bytes_in waiting.old) (state_in self.new.replay) (bytes_in waiting.new) }
    {
        let mut at = 0;
        for _ in 0..u64::MAX {
            let ran = self.run(rt, &waiting.buffer[at..waiting.have])?;
            at += ran.read;
            match ran.why {
                Why::Room => {}
                Why::Input => {
                    waiting.skip(at);
                    return Ok(());
                }
                Why::Malformed => return Err(malformed(rt)),
            }
        }
        Err(Over)
    }

    // Reads once and plays what came. At the end of the input, or where a read fails, it is over.
    fn turn<H: Print + Eprint, R: Read>(
        &mut self,
        rt: &H,
        input: &mut R,
        waiting: &mut Waiting,
    ) -> Result<(), Over>
        ensures { Turned result (state_in self.old.replay) (bytes_in waiting.old) (state_in self.new.replay) (bytes_in waiting.new) }
    {
        let have = waiting.have;
        match streams::fill(input, &mut waiting.buffer, have) {
            Err(_) => Err(unread(rt)),
            Ok(None) if have == 0 => {
                self.watch.end(rt, &self.replay, &mut self.sheet)?;
                Err(Over)
            }
            Ok(None) => Err(malformed(rt)),
            Ok(Some(n)) => {
                waiting.have = n;
                self.drain(rt, waiting)
            }
        }
    }

    // The version byte: `v1` follows a good one, and refusal 7 anything else.
    fn begin<H: Print + Eprint, R: Read>(&mut self, rt: &H, input: &mut R) -> Result<(), Over> {
        let mut version = [0u8; 1];
        match streams::fill(input, &mut version, 0) {
            Err(_) => Err(unread(rt)),
            Ok(Some(_)) if version[0] == 1 => self.watch.lines(rt, b"v1\n"),
            Ok(_) => Err(malformed(rt)),
        }
    }

    // Plays the trace until it is over.
    fn play<H: Print + Eprint, R: Read>(&mut self, rt: &H, input: &mut R) -> Result<(), Over> {
        self.begin(rt, input)?;
        let mut waiting = Waiting::new();
        for _ in 0..u64::MAX {
            self.turn(rt, input, &mut waiting)?;
        }
        Ok(())
    }
}

// Plays the trace on standard input, and tells the program of it.
pub fn play<H: Print + Eprint, R: Read, W: Watch + Drop>(rt: &H, input: &mut R, watch: W) {
    let mut driver = Driver {
        watch,
        replay: Replay::new(),
        out: [0; 65536],
        sheet: Text::new(),
    };
    let _ = driver.play(rt, input);
}
