// The ranges as numbers in the output, one after the other.
ghost use Rattle.std.specs.Prelude.{◌≡◌, ◌<◌, ◌≤◌};
ghost use Rattle.list.specs.Numbers.{flag_of, kind_of, number_of};
ghost use Rattle.list.specs.Writing.{written, put as put_of, answer_of};

use definition::{Listed, Mapped};

// How many are written, and the first address of one that found no room.
#[derive(Clone, Copy)]
pub struct Progress {
    pub count: usize,
    pub next: Option<u32>,
}

fn flag(b: bool) -> u64
    ensures { (result ≡ flag_of b) × (result < 2) }
{
    if b { 1 } else { 0 }
}

// 0 a page, 1 with WP, 2 with S, 3 with both; 4 a range whose descriptor can't be fetched.
fn kind(x: Mapped) -> u64
    ensures { (result ≡ kind_of x) × (result ≤ 4) }
{
    if x.lost {
        return 4;
    }
    let wp = flag(x.wp);
    let sup = flag(x.sup);
    sup * 2 + wp
}

// A range as one number.
#[tactic(auto, unfolding(crate::specs::Numbers::number_of))]
fn number(x: Mapped) -> u64
    ensures { result ≡ number_of x }
{
    let k = kind(x);
    x.first as u64 * 4294967296 + (x.physical as u64 / 256) * 256 + k * 33 + x.consumed as u64 % 33
}

// One range more, where there is room; else its address is kept to go on from.
#[tactic(auto, unfolding(crate::specs::Writing::put))]
pub fn put(out: &mut [u64], s: Progress, x: Mapped) -> Progress
    ensures { written out.new result ≡ put_of x (written out.old s) }
{
    if s.next.is_some() {
        return s;
    }
    let n = s.count;
    if n < out.len() {
        out[n] = number(x);
        return Progress {
            count: n + 1,
            next: None,
        };
    }
    Progress {
        count: n,
        next: Some(x.first),
    }
}

// What is answered in the end.
pub fn answer(s: Progress) -> Listed
    ensures { result ≡ answer_of s }
{
    match s.next {
        Some(next) => Listed::More {
            count: s.count,
            next,
        },
        None => Listed::All(s.count),
    }
}
