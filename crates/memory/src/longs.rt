// The longs that a call is lent: whether their base is good, and one of them.
ghost use Rattle.std.specs.Prelude.{◌≡◌, ◌&&◌, not, ◌%◌, ◌*◌, ◌+◌, ◌^◌, eqb, leb};
ghost use Rattle.definition.specs.Memory.{fetch_with};

// Refusal 2: base not a multiple of 4, or base + 4 x longs above 2^32. It is `bad_base` of any memory of `count` longs at `base`.
pub fn bad_base(count: usize, base: u32) -> bool
    ensures { result ≡ not (eqb (base % 4) 0 && leb (base + 4 * count) (2 ^ 32)) }
{
    if count > 1073741824 {
        return true;
    }
    !((base % 4 == 0) & (base as u64 + 4 * count as u64 <= 4294967296))
}

// The long at `at`, unless it lies outside the longs or the search hit a range.
pub fn long_unless(longs: &[u32], base: u32, at: u32, hit: bool) -> Option<u32>
    ensures { result ≡ fetch_with longs.now base at hit }
{
    if at < base {
        return None;
    }
    let off = at - base;
    if off % 4 != 0 {
        return None;
    }
    let i = (off / 4) as usize;
    if longs.len() <= i {
        return None;
    }
    if hit {
        return None;
    }
    Some(longs[i])
}
