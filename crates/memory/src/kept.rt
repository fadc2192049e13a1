// The bus-error ranges that a caller keeps: the first `n` of an array of sixteen.
// The library's `ArrayVec` is no `Copy` type, as what holds these is, and knows no `n` above 16, with which all sixteen count.
ghost use Rattle.std.specs.Prelude.{◌≡◌, ◌++◌, ◌∷◌, [], ◌<◌, ◌≤◌, length, OnOk, OnErr};
ghost use Rattle.memory.specs.Kept.{ranges_in};

use definition::Range;

#[derive(Clone, Copy)]
pub struct RangeList {
    pub list: [Range; 16],
    pub n: usize,
}

// There are sixteen already.
#[derive(Clone, Copy)]
pub struct Full;

impl RangeList {
    // None.
    pub fn new() -> Self
        ensures { ranges_in result ≡ [] }
    {
        let nowhere = Range { first: 0, last: 0 };
        Self {
            list: [nowhere; 16],
            n: 0,
        }
    }

    // Those that count: all sixteen where `n` is above 16.
    pub fn as_slice(&self) -> &[Range]
        ensures { result.now ≡ ranges_in self.now }
    {
        let n = self.n.min(self.list.len());
        &self.list[..n]
    }

    // One more, behind the others.
    pub fn push(&mut self, range: Range) -> Result<(), Full>
        ensures ok { OnOk result (ranges_in self.new ≡ ranges_in self.old ++ (range ∷ [])) }
        ensures room { OnOk result (length (ranges_in self.old) < 16) }
        ensures err { OnErr result (self.new ≡ self.old) }
        ensures full { OnErr result (16 ≤ length (ranges_in self.old)) }
    {
        if self.list.len() <= self.n {
            return Err(Full);
        }
        self.list[self.n] = range;
        self.n += 1;
        Ok(())
    }
}
