// The state that a trace leaves, and the bytes of it that wait to be played.
ghost use Rattle.std.specs.Prelude.{◌≡◌, false, ◌≤◌, ◌-◌, length};
ghost use Rattle.definition.specs.Words.{any_of};
ghost use Rattle.definition.specs.Refusal.{crossed};
ghost use Rattle.replay.specs.Playing.{ranges_of};

use cache::atc030::Atc030;
use cache::atc040::Atc040;
use replay::Kept;
use replay::run::Ran;

// Both caches, the longs, and what is kept beside: no range of it is crossed.
#[derive(Drop)]
pub struct Replay {
    pub c030: Atc030,
    pub c040: Atc040,
    pub longs: [u32; 8192],
    pub kept: Kept,
    pub ghost uncrossed: { any_of crossed (ranges_of kept) ≡ false },
}

impl Replay {
    ghost use Rattle.definition.specs.Trace.{first_registers};
    ghost use Rattle.playing.specs.Driving.{state_in, Went};

    pub(crate) fn new() -> Self
        ensures { (state_in result).registers ≡ first_registers }
    {
        Replay {
            c030: [0; 69],
            c040: [0; 128],
            longs: [0; 8192],
            kept: replay::first(),
        }
    }

    // Plays the whole records of `input`, with a line for each in the first `room` bytes of `out`.
    pub(crate) fn run(&mut self, input: &[u8], out: &mut [u8], room: usize) -> Ran
        requires { room ≤ length out.old }
        ensures within { result.read ≤ length input.now }
        ensures fits { result.wrote ≤ room }
        ensures went { Went (state_in self.old) input.now (state_in self.new) result.read }
    {
        let kept = self.kept;
        let ran = replay::run::run(
            &mut self.c030,
            &mut self.c040,
            &mut self.longs,
            kept,
            input,
            &mut out[..room],
        );
        self.kept = ran.kept;
        ran
    }
}

// The bytes that were read and not played yet: the first `have` of the buffer.
#[derive(Drop)]
pub struct Waiting {
    pub buffer: [u8; 131072],
    pub have: usize,
    pub ghost within: { have ≤ 131072 },
}

impl Waiting {
    ghost use Rattle.std.specs.Prelude.{[], drop};
    ghost use Rattle.playing.specs.Driving.{bytes_in};

    pub(crate) fn new() -> Self
        ensures { bytes_in result ≡ [] }
    {
        Waiting {
            buffer: [0; 131072],
            have: 0,
        }
    }

    // The bytes from `at` on move to the front of the buffer.
    pub(crate) fn skip(&mut self, at: usize)
        requires { at ≤ self.old.have }
        ensures { bytes_in self.new ≡ drop at (bytes_in self.old) }
    {
        self.buffer.copy_within(at..self.have, 0);
        self.have -= at;
    }
}
