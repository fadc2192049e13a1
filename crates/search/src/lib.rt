// What the end of a 68030 walk gives, in place: translate and load share it. A code has three bits.
#![tactic(auto)]

ghost use Rattle.std.specs.Prelude.{◌≡◌, ◌%◌, ◌<◌};
ghost use Rattle.std.specs.Prelude.{if◌then◌else◌};
ghost use Rattle.definition.specs.Walk030.{shift_of};
ghost use Rattle.definition.specs.Cache030.{Cache030};
ghost use Rattle.definition.specs.Translate.{violation, bus_error, configuration, cached};
ghost use Rattle.cache.specs.Atc030.{cache_of, Stepped};
ghost use Rattle.search.specs.Searched.{missing_cause, permitted_of, page030, end030, Ended};

use cache::atc030::{Atc030, insert};
use definition::{End, FaultCause, FaultKind, Translation};
use walk030::Walked;

// A fault of an access: AccessLevelViolation, which reports the logical address.
pub fn fault(cause: FaultCause, address: u32) -> Translation
    ensures { result ≡ violation cause address }
{
    Translation::Fault {
        kind: FaultKind::AccessLevelViolation,
        cause,
        address,
    }
}

// Bus error: kind BusError, cause TableWalkBusError, at the long that failed.
pub fn bus_fault(at: u32) -> Translation
    ensures { result ≡ bus_error at }
{
    Translation::Fault {
        kind: FaultKind::BusError,
        cause: FaultCause::TableWalkBusError,
        address: at,
    }
}

// Configuration: kind ConfigurationError, cause PageFault.
fn configuration_fault(address: u32) -> Translation
    ensures { result ≡ configuration address }
{
    Translation::Fault {
        kind: FaultKind::ConfigurationError,
        cause: FaultCause::PageFault,
        address,
    }
}

// Invalid: PageFault, or Indirect for a bad target.
fn missing_cause(indirect: bool) -> FaultCause
    ensures { result ≡ missing_cause indirect }
{
    if indirect {
        return FaultCause::Indirect;
    }
    FaultCause::PageFault
}

// The page's base is cached, where there is a page shift.
fn cache_page(c030: &mut Atc030, tc: u32, code: u32, address: u32, physical: u32, wp: bool)
    requires { code < 8 }
    ensures { Stepped (λ (c : Cache030). cached (shift_of tc) c code address physical wp) c030.old c030.new }
{
    match memory::page030::page_shift(tc) {
        None => {}
        Some(shift) => {
            let page = address >> shift;
            let base = memory::page030::page_base(physical, address, shift);
            insert(c030, code, page, shift, base, wp);
        }
    }
}

// Nothing is cached of a page that S forbids.
fn cache_unless(
    c030: &mut Atc030,
    forbidden: bool,
    tc: u32,
    code: u32,
    address: u32,
    physical: u32,
    wp: bool,
)
    requires { code < 8 }
    ensures { Stepped (λ (c : Cache030). if forbidden then c else cached (shift_of tc) c code address physical wp) c030.old c030.new }
{
    if forbidden {
        return;
    }
    cache_page(c030, tc, code, address, physical, wp);
}

// A page that S forbids gives SupervisorProtect, and then a write with WP gives WriteProtect.
fn permitted(forbidden: bool, write: bool, wp: bool, address: u32, physical: u32) -> Translation
    ensures { result ≡ permitted_of forbidden write wp address physical }
{
    if forbidden {
        return fault(FaultCause::SupervisorProtect, address);
    }
    if write & wp {
        return fault(FaultCause::WriteProtect, address);
    }
    Translation::Address(physical)
}

// S set and a user access: SupervisorProtect, nothing cached. Otherwise the page's base is cached, also where WP then forbids a write.
fn page_found(
    c030: &mut Atc030,
    tc: u32,
    code: u32,
    address: u32,
    write: bool,
    wp: bool,
    sup: bool,
    physical: u32,
) -> Translation
    requires { code < 8 }
    ensures { Ended (page030 tc (cache_of c030.old) code address write wp sup physical) result c030.new }
{
    let forbidden = sup & !((code >> 2) % 2 == 1);
    cache_unless(c030, forbidden, tc, code, address, physical, wp);
    permitted(forbidden, write, wp, address, physical)
}

// What a walk's end gives.
pub fn end_030(
    c030: &mut Atc030,
    tc: u32,
    code: u32,
    address: u32,
    write: bool,
    w: Walked,
) -> Translation
    ensures { Ended (end030 tc (cache_of c030.old) (code % 8) address write w) result c030.new }
{
    let end = w.end;
    match end {
        End::Page { field, consumed } => {
            let to = memory::page030::physical(field, consumed, address);
            page_found(c030, tc, code % 8, address, write, w.wp, w.sup, to)
        }
        End::Invalid { indirect } => fault(missing_cause(indirect), address),
        End::BusError { at } => bus_fault(at),
        End::LevelStop => configuration_fault(address),
        End::Config => configuration_fault(address),
    }
}
