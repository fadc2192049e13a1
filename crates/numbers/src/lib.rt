// What a host's numbers are: registers, an access, and an answer. A host hands in and is told numbers alone; specs/ says which number means what.
#![tactic(auto)]

ghost use Rattle.std.specs.Prelude.{◌≡◌, [], ◌∷◌};
ghost use Rattle.definition.specs.Trace.{override_of};
ghost use Rattle.numbers.specs.Numbers.{registers_of, access_of, translation_numbers, load_numbers, test_numbers, probe_numbers, audit_numbers, held_of, walked_of, finding_numbers, flush_number};

use definition::{Access, Audit, Finding, Flush, Load, Probe, Registers, Root, Test, Translation};
use load::LoadOutcome;
use test::TestOutcome;
use translate::Outcome;

// ---- What the host's numbers are.

// Family, flags, and the 11 longs.
pub fn registers_of(numbers: &[u32; 13]) -> Registers
    ensures { result ≡ registers_of numbers.now }
{
    let flags = numbers[1];
    let present = memory::bits::bit(flags, 0);
    let enabled = memory::bits::bit(flags, 1);
    let crp = Root {
        limit: numbers[3],
        address: numbers[4],
    };
    let srp = Root {
        limit: numbers[5],
        address: numbers[6],
    };
    Registers {
        family: numbers[0],
        present,
        enabled,
        tc: numbers[2],
        crp,
        srp,
        tt0: numbers[7],
        tt1: numbers[8],
        itt0: numbers[9],
        itt1: numbers[10],
        dtt0: numbers[11],
        dtt1: numbers[12],
    }
}

// An override, or FF for none.
fn override_of(code: u32) -> Option<u32>
    ensures { result ≡ override_of code }
{
    if code == 255 {
        return None;
    }
    Some(code)
}

// Flags: 0 write, 1 supervisor, 2 instruction, 3 CPU state, 4 record.
pub fn access_of(flags: u32, code: u32, address: u32) -> Access
    ensures { result ≡ access_of flags code address }
{
    let write = memory::bits::bit(flags, 0);
    let supervisor = memory::bits::bit(flags, 1);
    let instruction = memory::bits::bit(flags, 2);
    let own = memory::bits::bit(flags, 3);
    let recorded = memory::bits::bit(flags, 4);
    let code = override_of(code);
    Access {
        address,
        write,
        supervisor,
        instruction,
        own,
        code,
        recorded,
    }
}

// ---- What an answer is in numbers.

// A flush's: 0, or the number of its refusal.
pub fn flush_number(f: Flush) -> u32
    ensures { result ≡ flush_number f }
{
    match f {
        Flush::Flushed => 0,
        Flush::Refused(n) => n,
    }
}

// The five numbers of an answer.
fn tell(out: &mut [u32; 5], what: u32, number: u32, second: u32, third: u32, count: u32)
    ensures { out.new ≡ what ∷ number ∷ second ∷ third ∷ count ∷ [] }
{
    *out = [what, number, second, third, count];
}

// A translation's.
pub fn tell_translation(out: &mut [u32; 5], o: Outcome)
    ensures { out.new ≡ translation_numbers o.answer o.count }
{
    let answer = o.answer;
    match answer {
        Translation::Address(x) => tell(out, 0, x, 0, 0, o.count),
        Translation::Fault {
            kind,
            cause,
            address,
        } => {
            let k = definition::kind_number(kind);
            let c = definition::cause_number(cause);
            tell(out, 1, address, k, c, o.count)
        }
        Translation::Refused(n) => tell(out, 2, n, 0, 0, o.count),
    }
}

// A load's.
pub fn tell_load(out: &mut [u32; 5], o: LoadOutcome)
    ensures { out.new ≡ load_numbers o.answer o.count }
{
    let answer = o.answer;
    match answer {
        Load::Loaded => tell(out, 0, 0, 0, 0, o.count),
        Load::Refused(n) => tell(out, 2, n, 0, 0, o.count),
    }
}

// A test's.
pub fn tell_test(out: &mut [u32; 5], o: TestOutcome)
    ensures { out.new ≡ test_numbers o.answer o.count }
{
    let answer = o.answer;
    match answer {
        Test::Status { mmusr, address } => tell(out, 0, mmusr, address, 0, o.count),
        Test::Refused(n) => tell(out, 2, n, 0, 0, o.count),
    }
}

// A probe's.
pub fn tell_probe(out: &mut [u32; 5], p: Probe)
    ensures { out.new ≡ probe_numbers p }
{
    match p {
        Probe::Address(x) => tell(out, 0, x, 0, 0, 0),
        Probe::Nothing => tell(out, 3, 0, 0, 0, 0),
        Probe::Refused(n) => tell(out, 2, n, 0, 0, 0),
    }
}

// An audit's: 0 where every entry is right, 1 with the index of a stale entry and its cache, 30 or 40.
pub fn tell_audit(out: &mut [u32; 5], a: Audit)
    ensures { out.new ≡ audit_numbers a }
{
    match a {
        Audit::Clean => tell(out, 0, 0, 0, 0, 0),
        Audit::Stale030(i) => tell(out, 1, i, 30, 0, 0),
        Audit::Stale040(i) => tell(out, 1, i, 40, 0, 0),
        Audit::Refused(n) => tell(out, 2, n, 0, 0, 0),
    }
}

// What a cache gives: 0 and the base's low and high 32 bits, or 3 for nothing.
#[derive(Clone, Copy)]
struct Held {
    what: u32,
    low: u32,
    high: u32,
}

fn held_of(h: Option<u64>) -> Held
    ensures { result ≡ held_of h }
{
    match h {
        Some(base) => Held {
            what: 0,
            low: (base % 4294967296) as u32,
            high: (base / 4294967296) as u32,
        },
        None => Held {
            what: 3,
            low: 0,
            high: 0,
        },
    }
}

// What the tables give: a translation's numbers without the count.
#[derive(Clone, Copy)]
struct Walked {
    what: u32,
    number: u32,
    kind: u32,
    cause: u32,
}

fn walked_of(t: Translation) -> Walked
    ensures { result ≡ walked_of t }
{
    match t {
        Translation::Address(x) => Walked {
            what: 0,
            number: x,
            kind: 0,
            cause: 0,
        },
        Translation::Fault {
            kind,
            cause,
            address,
        } => Walked {
            what: 1,
            number: address,
            kind: definition::kind_number(kind),
            cause: definition::cause_number(cause),
        },
        Translation::Refused(n) => Walked {
            what: 2,
            number: n,
            kind: 0,
            cause: 0,
        },
    }
}

// What is said of one entry: its page's first address and code, what the cache gives, and what the tables give.
pub fn tell_finding(out: &mut [u32; 10], f: Finding)
    ensures { out.new ≡ finding_numbers f }
{
    match f {
        Finding::Says {
            address,
            code,
            cached,
            tables,
        } => {
            let h = held_of(cached);
            let t = walked_of(tables);
            *out = [
                0, address, code, h.what, h.low, h.high, t.what, t.number, t.kind, t.cause,
            ];
        }
        Finding::Refused(n) => {
            *out = [2, n, 0, 0, 0, 0, 0, 0, 0, 0];
        }
    }
}
