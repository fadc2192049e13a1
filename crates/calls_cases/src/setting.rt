// What the cases are given: registers, tables, accesses, and what compares and prints.
use definition::{Access, Range, Registers, Root};
use std::{fmt, io};

// What a call is tried with; `fit` has nothing that is refused, and each case spoils some of it.
#[derive(Clone, Copy)]
pub struct Trial {
    pub family: u32,
    pub enabled: bool,
    pub code: u32,
    pub base: u32,
    pub first: u32,
    pub last: u32,
    pub recent: u64,
    pub shift: u64,
    pub level: u32,
    pub mask: u32,
}

// What a call gave: the refusal's number, and whether the count was 0 and the caches stayed.
#[derive(Clone, Copy)]
pub struct Given {
    pub refusal: Option<u32>,
    pub kept: bool,
}

// A refusal's number, 0 for none, and a mark where the count was not 0 or the caches changed.
impl fmt::Display for Given {
    fn fmt<W: fmt::Write>(&self, f: &mut fmt::Formatter<W>) -> fmt::Result {
        let number = self.refusal.unwrap_or(0);
        let mark = if self.kept { "" } else { "!" };
        write!(f, " {number}{mark}")
    }
}

// What is spoilt, by number.
impl Trial {
    // Family 30 with an enabled PMMU, data of the user, tables at 1000, a range below them, shift 12.
    pub fn fit() -> Trial {
        Trial {
            family: 30,
            enabled: true,
            code: 1,
            base: 0x1000,
            first: 0x10,
            last: 0x10,
            recent: 0,
            shift: 12,
            level: 0,
            mask: 7,
        }
    }

    // 1: 'family not 30, 40, 60'.
    pub fn one(self) -> Trial {
        Trial { family: 20, ..self }
    }

    // 6: 'PLOAD or PTEST on family 40 or 60'.
    pub fn six(self) -> Trial {
        Trial { family: 40, ..self }
    }

    // 5: 'override, function code .. above 7'.
    pub fn five(self) -> Trial {
        Trial { code: 8, ..self }
    }

    // 5: a mask above 7.
    pub fn five_mask(self) -> Trial {
        Trial { mask: 8, ..self }
    }

    // A test's level; 5: one above 7.
    pub fn at(self, level: u32) -> Trial {
        Trial { level, ..self }
    }

    // 2: 'base not a multiple of 4'.
    pub fn two(self) -> Trial {
        Trial {
            base: 0x1002,
            ..self
        }
    }

    // 2: 'base + 4 x longs above 2^32': of 32 longs.
    pub fn two_high(self) -> Trial {
        Trial {
            base: 0xFFFF_FF84,
            ..self
        }
    }

    // 3: 'a range whose first is above its last'.
    pub fn three(self) -> Trial {
        Trial {
            first: 0x11,
            ..self
        }
    }

    // 4: 'most-recent index above 21'.
    pub fn four(self) -> Trial {
        Trial { recent: 22, ..self }
    }

    // 4: 'or shift above 31'.
    pub fn four_shift(self) -> Trial {
        Trial { shift: 32, ..self }
    }

    // The largest that are taken: code 7, base + 4 x longs at 2^32, most recent index 21, shift 31.
    pub fn largest(self) -> Trial {
        Trial {
            code: 7,
            base: 0xFFFF_FF80,
            recent: 21,
            shift: 31,
            ..self
        }
    }

    // The PMMU is off: the checks 'precede the test for an enabled PMMU'.
    pub fn off(self) -> Trial {
        Trial {
            enabled: false,
            ..self
        }
    }

    // The registers of a case.
    pub fn registers(self) -> Registers {
        registers(self.family, self.enabled)
    }

    // The one range of a case, and whether it is crossed.
    pub fn range(self) -> Range {
        Range {
            first: self.first,
            last: self.last,
        }
    }

    pub fn is_crossed(self) -> bool {
        self.last < self.first
    }
}

// TC 80C07760 and a short root table at 1000, no TT: the registers of the twelve examples.
pub fn registers(family: u32, enabled: bool) -> Registers {
    Registers {
        family,
        present: true,
        enabled,
        tc: 0x80C0_7760,
        crp: Root {
            limit: 0x8000_0002,
            address: 0x1000,
        },
        srp: Root {
            limit: 0,
            address: 0,
        },
        tt0: 0,
        tt1: 0,
        itt0: 0,
        itt1: 0,
        dtt0: 0,
        dtt1: 0,
    }
}

// Three tables from 1000 on: 1004=1022, 1024=1042, 1044=55001. So logical 02041ABC is 00055ABC, with 3 longs asked for.
pub fn tree() -> [u32; 32] {
    let mut longs = [0u32; 32];
    longs[1] = 0x1022;
    longs[9] = 0x1042;
    longs[17] = 0x55001;
    longs
}

// Logical 02041ABC of user data, or under a function code.
pub fn access(code: Option<u32>, write: bool, recorded: bool) -> Access {
    Access {
        address: 0x0204_1ABC,
        write,
        supervisor: false,
        instruction: false,
        own: false,
        code,
        recorded,
    }
}

// Tries a call with each trial, and writes what it gives.
pub fn show<P: Print, F: Fn(Trial) -> Given + Drop>(
    rt: &P,
    call: F,
    trials: &[Trial],
) -> io::Result<()>
    requires { F.IsAlwaysCallable call }
{
    for t in trials {
        let given = call(*t);
        print!(rt; "{given}")?;
    }
    Ok(())
}
