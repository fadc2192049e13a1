// The calls of document 01 that walk, by value: 'Two caches, by value first.' Each copies the pair's arrays, lends them to the call in place and builds the pair anew.
ghost use Rattle.std.specs.Prelude.{◌≡◌, length};
ghost use Rattle.definition.specs.Memory.{memory};
ghost use Rattle.definition.specs.Translate.{translate as translate_of};
ghost use Rattle.definition.specs.Load.{load as load_of};
ghost use Rattle.definition.specs.Test.{test as test_of};
ghost use Rattle.cache.specs.Pair.{pair_of};
ghost use Rattle.test.specs.Tested.{shown_tested, TestedIn};
ghost use Rattle.mmu.specs.ByValue.{TranslatedBy, LoadedBy};

use cache::CachePair;
use cache::atc030::Atc030;
use cache::atc040::Atc040;
use definition::{Access, Load, Range, Registers, Translation};
use load::LoadOutcome;
use memory::ranges::any_crossed;
use test::TestOutcome;
use translate::Outcome;

// An answer, its count and the next caches.
#[derive(Clone, Copy)]
pub struct Translated {
    pub answer: Translation,
    pub count: u32,
    pub caches: CachePair,
}

// The same of a load.
#[derive(Clone, Copy)]
pub struct Loaded {
    pub answer: Load,
    pub count: u32,
    pub caches: CachePair,
}

// A copy of a pair's 68030 cache.
fn c030_of(caches: CachePair) -> Atc030
    ensures { result ≡ caches.c030 }
{
    let c030 = caches.c030;
    c030
}

// And of its 68040 cache.
fn c040_of(caches: CachePair) -> Atc040
    ensures { (result ≡ caches.c040) × (length result ≡ 128) }
{
    let c040 = caches.c040;
    c040
}

// ---- Translate.

// What a translation gives, with the pair.
fn with_pair(o: Outcome, c030: Atc030, c040: Atc040) -> Translated
    ensures { (result.answer ≡ o.answer) × (result.count ≡ o.count) × (result.caches.c030 ≡ c030) × (result.caches.c040 ≡ c040) }
{
    let answer = o.answer;
    Translated {
        answer,
        count: o.count,
        caches: CachePair { c030, c040 },
    }
}

// Translate: refusals, then 'transparent registers, cache, walk'.
pub fn translate(
    longs: &[u32],
    base: u32,
    ranges: &[Range],
    g: Registers,
    a: Access,
    caches: CachePair,
) -> Translated
    ensures { TranslatedBy (translate_of g a (memory longs.now base ranges.now) (pair_of caches)) result }
{
    let crossed = any_crossed(ranges);
    let mut c030 = c030_of(caches);
    let mut c040 = c040_of(caches);
    let o = translate::translate(&mut c030, &mut c040, longs, base, ranges, crossed, g, a);
    with_pair(o, c030, c040)
}

// ---- Load.

// What a load gives, with the pair.
fn load_with_pair(o: LoadOutcome, c030: Atc030, c040: Atc040) -> Loaded
    ensures { (result.answer ≡ o.answer) × (result.count ≡ o.count) × (result.caches.c030 ≡ c030) × (result.caches.c040 ≡ c040) }
{
    let answer = o.answer;
    Loaded {
        answer,
        count: o.count,
        caches: CachePair { c030, c040 },
    }
}

// Load: 'drops the page (mask 7), .. and searches and caches'. The 68040 cache stays.
pub fn load(
    longs: &[u32],
    base: u32,
    ranges: &[Range],
    g: Registers,
    code: u32,
    write: bool,
    address: u32,
    caches: CachePair,
) -> Loaded
    ensures { LoadedBy (load_of g code write address (memory longs.now base ranges.now) (pair_of caches)) result }
{
    let crossed = any_crossed(ranges);
    let mut c030 = c030_of(caches);
    let c040 = c040_of(caches);
    let o = load::load(
        &mut c030, longs, base, ranges, crossed, g, code, write, address,
    );
    load_with_pair(o, c030, c040)
}

// ---- Test.

// Test: 'works whether enabled or not and touches no cache'. The write byte changes nothing.
pub fn test(
    longs: &[u32],
    base: u32,
    ranges: &[Range],
    g: Registers,
    code: u32,
    write: bool,
    level: u32,
    address: u32,
) -> TestOutcome
    ensures { TestedIn (shown_tested (test_of g code write level address (memory longs.now base ranges.now))) result.answer result.count }
{
    let crossed = any_crossed(ranges);
    test::test(longs, base, ranges, crossed, g, code, write, level, address)
}
