// What a call is given and what it answers: the structs and enums that every crate shares. Their meaning is in specs/.
#![tactic(auto)]

ghost use Rattle.std.specs.Prelude.{◌≡◌};
ghost use Rattle.definition.specs.Answers.{kind_number, cause_number};

// A root pointer: its limit long, whose low two bits are its type, and its address long.
#[derive(Clone, Copy)]
pub struct Root {
    pub limit: u32,
    pub address: u32,
}

// The registers. `present` is has-PMMU.
#[derive(Clone, Copy)]
pub struct Registers {
    pub family: u32,
    pub present: bool,
    pub enabled: bool,
    pub tc: u32,
    pub crp: Root,
    pub srp: Root,
    pub tt0: u32,
    pub tt1: u32,
    pub itt0: u32,
    pub itt1: u32,
    pub dtt0: u32,
    pub dtt1: u32,
}

// An access. `own` is the CPU's own supervisor state, `code` a function-code override where there is one, `recorded` whether hits record a use.
#[derive(Clone, Copy)]
pub struct Access {
    pub address: u32,
    pub write: bool,
    pub supervisor: bool,
    pub instruction: bool,
    pub own: bool,
    pub code: Option<u32>,
    pub recorded: bool,
}

// A bus-error range: both addresses are inside. Its layout is C's: a host lends a slice of them.
#[repr(C)]
#[derive(Clone, Copy)]
pub struct Range {
    pub first: u32,
    pub last: u32,
}

// How a 68030 walk ends.
#[derive(Clone, Copy)]
pub enum End {
    Page { field: u32, consumed: u32 },
    Invalid { indirect: bool },
    LevelStop,
    BusError { at: u32 },
    Config,
}

// How a 68040 walk ends: a page's descriptor with W of the levels and S of the page, an invalid one, or a long that failed.
#[derive(Clone, Copy)]
pub enum End040 {
    Resident { field: u32, wp: bool, sup: bool },
    Absent(FaultCause),
    Lost { at: u32 },
}

// Fault kinds and causes, in the order of `mod.rs`.
#[derive(Clone, Copy)]
pub enum FaultKind {
    ConfigurationError,
    IllegalOperation,
    AccessLevelViolation,
    BusError,
}

#[derive(Clone, Copy)]
pub enum FaultCause {
    PointerA,
    PointerB,
    Indirect,
    PageFault,
    WriteProtect,
    SupervisorProtect,
    TableWalkBusError,
    AccessBusError,
}

// The answers of the calls. A refusal carries its number alone.
#[derive(Clone, Copy)]
pub enum Translation {
    Address(u32),
    Fault {
        kind: FaultKind,
        cause: FaultCause,
        address: u32,
    },
    Refused(u32),
}

#[derive(Clone, Copy)]
pub enum Load {
    Loaded,
    Refused(u32),
}

#[derive(Clone, Copy)]
pub enum Test {
    Status { mmusr: u32, address: u32 },
    Refused(u32),
}

#[derive(Clone, Copy)]
pub enum Probe {
    Address(u32),
    Nothing,
    Refused(u32),
}

#[derive(Clone, Copy)]
pub enum Flush {
    Flushed,
    Refused(u32),
}

// What an audit of the caches says: every entry gives what the tables give, or the index of the first that doesn't, in the one cache or the other.
#[derive(Clone, Copy)]
pub enum Audit {
    Clean,
    Stale030(u32),
    Stale040(u32),
    Refused(u32),
}

// What is said of one entry, for a read or a write: its page's first address and its code, what the cache gives, and what the tables give.
#[derive(Clone, Copy)]
pub enum Finding {
    Says {
        address: u32,
        code: u32,
        cached: Option<u64>,
        tables: Translation,
    },
    Refused(u32),
}

// A range that a 68030 tree maps: its first address, the bits consumed, its physical start, WP and S. Lost: its descriptor can't be fetched.
#[derive(Clone, Copy)]
pub struct Mapped {
    pub first: u32,
    pub consumed: u32,
    pub physical: u32,
    pub wp: bool,
    pub sup: bool,
    pub lost: bool,
}

// A table of a tree, or an entry of one: where it stands, whether its descriptors are long, the first address of its stretch, the bits consumed
// up to it, and what WP and S of the descriptors above it add up to.
#[derive(Clone, Copy)]
pub struct Node {
    pub at: u32,
    pub long: bool,
    pub first: u32,
    pub consumed: u32,
    pub wp: bool,
    pub sup: bool,
}

// What an entry of a table is: nothing to list, a range, or a table of its own.
#[derive(Clone, Copy)]
pub enum Seen {
    Nothing,
    One(Mapped),
    Opens(Node),
}

// What a list answers: so many ranges, which are all, or so many and the first address of the next.
#[derive(Clone, Copy)]
pub enum Listed {
    All(usize),
    More { count: usize, next: u32 },
    Refused(u32),
}

// A fault kind's number.
pub fn kind_number(k: FaultKind) -> u32
    ensures { result ≡ kind_number k }
{
    match k {
        FaultKind::ConfigurationError => 0,
        FaultKind::IllegalOperation => 1,
        FaultKind::AccessLevelViolation => 2,
        FaultKind::BusError => 3,
    }
}

// A fault cause's number.
pub fn cause_number(c: FaultCause) -> u32
    ensures { result ≡ cause_number c }
{
    match c {
        FaultCause::PointerA => 0,
        FaultCause::PointerB => 1,
        FaultCause::Indirect => 2,
        FaultCause::PageFault => 3,
        FaultCause::WriteProtect => 4,
        FaultCause::SupervisorProtect => 5,
        FaultCause::TableWalkBusError => 6,
        FaultCause::AccessBusError => 7,
    }
}
