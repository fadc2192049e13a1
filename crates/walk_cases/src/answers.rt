// What a walk's end means: the answer of a translation from empty caches, and of PTEST.
ghost use Rattle.std.specs.Prelude.{◌≤◌};

use definition::{End, End040, FaultCause, FaultKind, Translation};
use walk030::Walked;
use walk040::Walked040;

// A fault with its kind.
fn fault(kind: FaultKind, cause: FaultCause, address: u32) -> Translation {
    Translation::Fault {
        kind,
        cause,
        address,
    }
}

// Faults but for bus errors and configurations.
fn violation(cause: FaultCause, address: u32) -> Translation {
    fault(FaultKind::AccessLevelViolation, cause, address)
}

// A long that a walk asked for failed.
fn bus_error(at: u32) -> Translation {
    fault(FaultKind::BusError, FaultCause::TableWalkBusError, at)
}

// There is nothing to walk.
fn configuration(address: u32) -> Translation {
    fault(
        FaultKind::ConfigurationError,
        FaultCause::PageFault,
        address,
    )
}

// Whether a code is a supervisor's.
pub fn is_supervisor(code: u32) -> bool {
    code / 4 % 2 == 1
}

// A page of the 68030: S is tested before WP.
fn page_030(w: Walked, code: u32, write: bool, address: u32, physical: u32) -> Translation {
    if w.sup && !is_supervisor(code) {
        return violation(FaultCause::SupervisorProtect, address);
    }
    if write && w.wp {
        return violation(FaultCause::WriteProtect, address);
    }
    Translation::Address(physical)
}

// A translation by a 68030 walk.
pub fn translated_030(w: Walked, code: u32, write: bool, address: u32) -> Translation {
    match w.end {
        End::Page { field, consumed } => {
            let physical = memory::page030::physical(field, consumed, address);
            page_030(w, code, write, address, physical)
        }
        End::Invalid { indirect: true } => violation(FaultCause::Indirect, address),
        End::Invalid { indirect: false } => violation(FaultCause::PageFault, address),
        End::LevelStop | End::Config => configuration(address),
        End::BusError { at } => bus_error(at),
    }
}

// A translation by a 68040 walk: W is tested before S.
pub fn translated_040(w: Walked040, tc: u32, code: u32, write: bool, address: u32) -> Translation {
    match w.end {
        End040::Resident { field, wp, sup } => {
            if write && wp {
                return violation(FaultCause::WriteProtect, address);
            }
            if sup && !is_supervisor(code) {
                return violation(FaultCause::SupervisorProtect, address);
            }
            Translation::Address(memory::page040::physical_040(tc, field, address))
        }
        End040::Absent(missing) => violation(missing, address),
        End040::Lost { at } => bus_error(at),
    }
}

// The MMUSR's bits for a walk's end: B for bus error or configuration, I for invalid.
fn end_flags(end: End) -> u32
    ensures { result ≤ 0x8000 }
{
    match end {
        End::Page { .. } | End::LevelStop => 0,
        End::Invalid { .. } => 0x0400,
        End::BusError { .. } | End::Config => 0x8000,
    }
}

// PTEST's MMUSR: B, S (user code), W, I and N levels, of which there are at most five.
pub fn mmusr(w: Walked, code: u32) -> u32 {
    let s = if w.sup && !is_supervisor(code) {
        0x2000
    } else {
        0
    };
    let wp = if w.wp { 0x0800 } else { 0 };
    end_flags(w.end) + s + wp + w.levels % 8
}
