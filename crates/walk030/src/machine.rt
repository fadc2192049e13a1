// Where a 68030 walk stands before a descriptor, and what one descriptor changes.
ghost use Rattle.std.specs.Prelude.{◌≡◌, ◌<◌, ℕ, get_or, length};
ghost use Rattle.definition.specs.Walk030.{top_index, used};
ghost use Rattle.walk030.specs.Machine.{adds_of, answered, asked_of, at_limit, aim_of, begin_of, levels_of, next_k, onward_of, seen_of};

use crate::Walked;
use definition::{End, Root};
use memory::bits::bit;
use memory::descriptor::{Descriptor, Kind, Lost, entry, table_of, target_of};

// How many widths there are, stopping at the first zero.
pub fn level_count(ws: [u32; 4]) -> usize
    ensures { result ≡ length (used ws) }
{
    for (n, w) in ws.iter().enumerate() {
        if *w == 0 {
            return n;
        }
    }
    4
}

// An index is the address shifted left by (consumed mod 32), bits lost, then right by 32 - width.
fn top_index(address: u32, consumed: u32, width: u32) -> u32
    requires { width < 16 }
    ensures { result ≡ top_index address consumed width }
{
    if width == 0 {
        return 0;
    }
    (address << (consumed % 32)) >> (32 - width)
}

// The width of level `k`: 0 past the last.
fn width_at(ws: [u32; 4], k: usize) -> u32
    ensures { result ≡ get_or ws k 0 }
{
    if k < 4 {
        return ws[k];
    }
    0
}

// The number of widths consumed after one more.
fn next_k(k: usize) -> usize
    ensures { result ≡ next_k k }
{
    if k < 4 {
        return k + 1;
    }
    k
}

// Where a 68030 walk stands before a descriptor. `target`: the next is the target of an indirect one. `coded`: the
// function-code level is next. `k` is the number of widths consumed, `last` the last descriptor asked for or the next.
#[derive(Clone, Copy)]
pub struct Walking030 {
    pub target: bool,
    coded: bool,
    pub consumed: u32,
    k: usize,
    table: u32,
    pub long: bool,
    wp: bool,
    sup: bool,
    levels: u32,
    asked: u32,
    pub last: u32,
}

impl Walking030 {
    // The table is at address & FFFFFFF0. IS (19:16) is consumed first; TC bit 24 adds a function-code level. No table is a configuration
    // fault, and no level at all is one too; `n` widths are used.
    pub fn begin(tc: u32, root: Root, n: usize) -> Option<Self>
        ensures { result ≡ begin_of tc root n }
    {
        let Kind::Table { long } = Kind::from(root.limit) else {
            return None;
        };
        let coded = bit(tc, 24);
        if (n == 0) & !coded {
            return None;
        }
        Some(Walking030 {
            target: false,
            coded,
            consumed: (tc >> 16) % 16,
            k: 0,
            table: table_of(root.address),
            long,
            wp: false,
            sup: false,
            levels: 0,
            asked: 0,
            last: root.address,
        })
    }

    // At most `limit` levels; a target is none.
    pub fn is_at_limit(self, limit: u32) -> bool
        ensures { result ≡ at_limit limit self }
    {
        !self.target & (limit <= self.levels)
    }

    // The level's index, by the code or by the address, settles where its descriptor stands.
    #[tactic(auto, unfolding(crate::specs::Machine::aim_of))]
    pub fn aim(self, ws: [u32; 4], address: u32, code: u32) -> Self
        requires { ((k : ℕ) → get_or ws k 0 < 16) × (self.consumed < 1000) }
        ensures { result ≡ aim_of ws address code self }
    {
        if self.target {
            return self;
        }
        let mut t = self;
        if self.coded {
            t.coded = false;
            t.last = entry(self.table, code, self.long);
            return t;
        }
        let width = width_at(ws, self.k);
        let index = top_index(address, self.consumed, width);
        t.consumed = self.consumed + width;
        t.k = next_k(self.k);
        t.last = entry(self.table, index, self.long);
        t
    }

    // WP and S add up over all but type 0 and the indirect one; a target adds its own whatever its type. `n` widths are used.
    fn adds(self, n: usize, kind: Kind) -> bool
        ensures { result ≡ adds_of n self kind }
    {
        if self.target {
            return true;
        }
        match kind {
            Kind::Invalid => false,
            Kind::Page => true,
            Kind::Table { long: _ } => self.k != n,
        }
    }

    // A level's descriptor is one level more, a target is none.
    fn levels_with(self) -> u32
        requires { self.levels < 1000 }
        ensures { result ≡ levels_of self }
    {
        if self.target {
            return self.levels;
        }
        self.levels + 1
    }

    // What a descriptor adds to what was found. A failing fetch isn't in the levels.
    #[tactic(auto, unfolding(crate::specs::Machine::seen_of))]
    pub fn seen(self, n: usize, read: Result<Descriptor, Lost>) -> Self
        requires { (self.levels < 1000) × (self.asked < 1000) × (asked_of read < 1000) }
        ensures { result ≡ seen_of n self read }
    {
        let mut t = self;
        match read {
            Err(lost) => {
                t.asked = self.asked + lost.asked;
                t
            }
            Ok(d) => {
                let also = self.adds(n, d.kind);
                t.levels = self.levels_with();
                t.wp = self.wp | (also & d.wp);
                t.sup = self.sup | (also & d.sup);
                t.asked = self.asked + d.asked;
                t
            }
        }
    }

    // Types 2 and 3 name the next table; on the last level, where `n` widths are consumed, they are indirect.
    pub fn onward(self, n: usize, long: bool, field: u32) -> Self
        ensures { result ≡ onward_of n self long field }
    {
        let mut t = self;
        t.long = long;
        if self.k == n {
            t.target = true;
            t.last = target_of(field);
            return t;
        }
        t.table = table_of(field);
        t
    }

    // How the walk ended, with what it found.
    pub fn answer(self, end: End) -> Walked
        ensures { result ≡ answered self end }
    {
        Walked {
            end,
            wp: self.wp,
            sup: self.sup,
            levels: self.levels,
            last: self.last,
            asked: self.asked,
        }
    }
}
