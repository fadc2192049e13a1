// The 68040's 64 slots in one array: 64 keys frame * 4 + supervisor * 2 + valid, 64 bases base * 4 + W * 2 + S.
ghost use Rattle.std.specs.Prelude.{◌≡◌, not, ◌&&◌, ◌||◌, ◌/◌, ◌%◌, ◌<◌, if◌then◌else◌, Some, None};
ghost use Rattle.definition.specs.Cache040.{Cache040, hit040, inserted040, flushed_all040, flushed_frame};
ghost use Rattle.cache.specs.Packed.{odd};
ghost use Rattle.cache.specs.Atc040.{cache040_of, Stepped040, key_of040};

pub type Atc040 = [u64; 128];

// Where the bases stand.
pub const BASES: usize = 64;

// The slot of a frame: frame mod 64.
fn slot_of(frame: u32) -> usize
    ensures { (result ≡ frame % 64) × (result < 64) }
{
    (frame % 64) as usize
}

// The key of a valid slot: frame and supervisor.
fn key_of(frame: u32, supervisor: bool) -> u64
    ensures { result ≡ key_of040 frame supervisor }
{
    (frame as u64) * 4 + u64::from(supervisor) * 2 + 1
}

// The base of a cached page. A hit that protection forbids is a miss.
pub fn permitted(b: u64, supervisor: bool, write: bool) -> Option<u64>
    ensures { result ≡ (if write && odd (b / 2) || not supervisor && odd b then None else Some (b / 4)) }
{
    if write && b / 2 % 2 == 1 {
        return None;
    }
    if !supervisor && b % 2 == 1 {
        return None;
    }
    Some(b / 4)
}

// A look: the base of the frame's slot.
pub fn look_040(c040: &Atc040, frame: u32, supervisor: bool, write: bool) -> Option<u64>
    ensures { result ≡ hit040 (cache040_of c040.now) frame supervisor write }
{
    let i = slot_of(frame);
    if c040[i] != key_of(frame, supervisor) {
        return None;
    }
    permitted(c040[BASES + i], supervisor, write)
}

// An insert takes the frame's slot.
pub fn insert_040(c040: &mut Atc040, frame: u32, supervisor: bool, base: u32, wp: bool, sup: bool)
    ensures { Stepped040 (λ (c : Cache040). inserted040 c frame supervisor base wp sup) c040.old c040.new }
{
    let i = slot_of(frame);
    c040[i] = key_of(frame, supervisor);
    c040[BASES + i] = (base as u64) * 4 + u64::from(wp) * 2 + u64::from(sup);
}

// A flush of everything only marks invalid.
pub fn flush_all_040(c040: &mut Atc040)
    ensures { Stepped040 flushed_all040 c040.old c040.new }
{
    for k in &mut c040[..64] {
        *k -= *k % 2;
    }
}

// A page flush drops that frame for either privilege.
pub fn flush_frame(c040: &mut Atc040, frame: u32)
    ensures { Stepped040 (λ (c : Cache040). flushed_frame c frame) c040.old c040.new }
{
    let i = slot_of(frame);
    let k = c040[i];
    if k / 4 != frame as u64 {
        return;
    }
    c040[i] = k - k % 2;
}
