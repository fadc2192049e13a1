// What is said of one entry, from its numbers: the parts that the calls share.
ghost use Rattle.std.specs.Prelude.{◌≡◌};
ghost use Rattle.definition.specs.Translate.{empty_caches};
ghost use Rattle.definition.specs.Audit.{bare as bare_of};
ghost use Rattle.cache.specs.Pair.{pair_of};
ghost use Rattle.audit.specs.Told.{code_for, hit_for, access_for, told_of};

use crate::{Cached, address_for};
use cache::{CachePair, atc030, atc040};
use definition::{Access, Finding, Registers};
use mmu::by_value::Translated;

// The code of an entry; a 68040 slot has the data code of its privilege.
pub fn code_for(g: Registers, x: Cached) -> u32
    ensures { result ≡ code_for g x }
{
    if g.family == 30 {
        return (x.key / 2 % 8) as u32;
    }
    checks::code_of(x.key / 2 % 2 == 1, false)
}

// What the entry gives an access with its key.
fn hit_for(g: Registers, x: Cached, write: bool) -> Option<u64>
    ensures { result ≡ hit_for g x write }
{
    if x.key % 2 != 1 {
        return None;
    }
    if g.family == 30 {
        return atc030::permitted(x.page, write);
    }
    atc040::permitted(x.page, x.key / 2 % 2 == 1, write)
}

// An access with the entry's key, to its page's first byte.
pub fn access_for(g: Registers, x: Cached, write: bool) -> Access
    ensures { result ≡ access_for g x write }
{
    let address = address_for(g, x);
    let code = code_for(g, x);
    let supervisor = memory::bits::bit(code, 2);
    Access {
        address,
        write,
        supervisor,
        instruction: code % 4 == 2,
        own: supervisor,
        code: None,
        recorded: false,
    }
}

// The registers with the PMMU on and no transparent register that matches.
pub fn bare(g: Registers) -> Registers
    ensures { result ≡ bare_of g }
{
    let crp = g.crp;
    let srp = g.srp;
    Registers {
        family: g.family,
        present: true,
        enabled: true,
        tc: g.tc,
        crp,
        srp,
        tt0: 0,
        tt1: 0,
        itt0: 0,
        itt1: 0,
        dtt0: 0,
        dtt1: 0,
    }
}

// The empty caches that a cacheless walk starts from.
pub fn no_caches() -> CachePair
    ensures { pair_of result ≡ empty_caches }
{
    CachePair::empty()
}

// The refusal, or what the cache and the cacheless walk give.
pub fn told(g: Registers, x: Cached, write: bool, n: u32, t: Translated) -> Finding
    ensures { result ≡ told_of g x write n t.answer }
{
    if n != 0 {
        return Finding::Refused(n);
    }
    let address = address_for(g, x);
    let code = code_for(g, x);
    let cached = hit_for(g, x, write);
    let tables = t.answer;
    Finding::Says {
        address,
        code,
        cached,
        tables,
    }
}
