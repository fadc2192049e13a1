// Tries the audit on each kind of damage and on each harmless kind, in both caches, on its refusals, and what is said of an entry.
// What must be written stands in the file stdout, from document 01 by hand: `e` an entry of the 68030, `d` a slot of the 68040.
#![tactic(auto)]

use audit::audit_lent;
use audit::finding::finding_lent;
use cache::atc030::{Atc030, PAGES, RECENT, SHIFT};
use cache::atc040::Atc040;
use definition::{Access, Audit, Finding, Range, Registers, Root, Translation};
use std::io;

// ---- What the cases are given.

// The registers of the twelve examples, SRP as CRP.
fn rooted(family: u32, tc: u32, limit: u32) -> Registers {
    let root = Root {
        limit,
        address: 0x1000,
    };
    Registers {
        family,
        present: true,
        enabled: true,
        tc,
        crp: root,
        srp: root,
        tt0: 0,
        tt1: 0,
        itt0: 0,
        itt1: 0,
        dtt0: 0,
        dtt1: 0,
    }
}

fn registers(family: u32, tc: u32) -> Registers {
    rooted(family, tc, 0x8000_0002)
}

fn of_030() -> Registers {
    registers(30, 0x80C0_7760)
}

fn of_040() -> Registers {
    registers(40, 0x8000)
}

// A read of 02041ABC.
fn reading(supervisor: bool) -> Access {
    Access {
        address: 0x0204_1ABC,
        write: false,
        supervisor,
        instruction: false,
        own: supervisor,
        code: None,
        recorded: true,
    }
}

// ---- What is written.

fn index<P: Print>(rt: &P, letter: &str, i: u32) -> io::Result<()> {
    print!(rt; "{letter}{i}")
}

fn tell<P: Print>(rt: &P, a: Audit) -> io::Result<()> {
    match a {
        Audit::Clean => print!(rt; " clean"),
        Audit::Stale030(i) => index(rt, " e", i),
        Audit::Stale040(i) => index(rt, " d", i),
        Audit::Refused(n) => index(rt, " R", n),
    }
}

// ---- What is tried.

// The caches and the longs that a case is tried on.
#[derive(Clone, Copy)]
struct Setting {
    c030: Atc030,
    c040: Atc040,
    longs: [u32; 8192],
}

impl Setting {
    // Empty caches and no tables.
    fn new() -> Self {
        Setting {
            c030: [0; 69],
            c040: [0; 128],
            longs: [0; 8192],
        }
    }

    // The page of 02041ABC is cached, from its tables.
    fn warm(&mut self, g: Registers, supervisor: bool) {
        self.store_tables();
        self.translate(g, supervisor);
    }

    // The long at an address.
    fn long(&mut self, address: u32) -> &mut u32 {
        &mut self.longs[(address / 4 % 8192) as usize]
    }

    fn store(&mut self, address: u32, value: u32) {
        *self.long(address) = value;
    }

    // 1004=2002, 2004=3002, 3004=55001; and a table of long descriptors at 4000, whose second is the same page with S.
    fn store_tables(&mut self) {
        self.store(0x1004, 0x2002);
        self.store(0x2004, 0x3002);
        self.store(0x3004, 0x55001);
        self.store(0x4008, 0x101);
        self.store(0x400C, 0x55000);
    }

    // Reads 02041ABC.
    fn translate(&mut self, g: Registers, supervisor: bool) {
        let a = reading(supervisor);
        translate::translate(
            &mut self.c030,
            &mut self.c040,
            &self.longs,
            0,
            &[],
            false,
            g,
            a,
        );
    }

    // What the audit says over a base and ranges.
    fn show_with<P: Print>(
        &self,
        rt: &P,
        base: u32,
        ranges: &[Range],
        g: Registers,
    ) -> io::Result<()> {
        tell(
            rt,
            audit_lent(&self.c030, &self.c040, &self.longs, base, ranges, g, 0),
        )
    }

    // What it says from an index on.
    fn show_from<P: Print>(&self, rt: &P, g: Registers, from: u32) -> io::Result<()> {
        tell(
            rt,
            audit_lent(&self.c030, &self.c040, &self.longs, 0, &[], g, from),
        )
    }

    fn show<P: Print>(&self, rt: &P, g: Registers) -> io::Result<()> {
        self.show_from(rt, g, 0)
    }

    // The same over each changed long, which is then as it was.
    fn show_changed<P: Print>(
        &mut self,
        rt: &P,
        g: Registers,
        changes: &[(u32, u32)],
    ) -> io::Result<()> {
        for (address, value) in changes {
            let before = std::mem::replace(self.long(*address), *value);
            self.show(rt, g)?;
            self.store(*address, before);
        }
        Ok(())
    }

    // What is said of entry i, for a read and for a write.
    fn say<P: Print>(&self, rt: &P, g: Registers, i: u32) -> io::Result<()> {
        for write in [false, true] {
            tell_finding(
                rt,
                finding_lent(&self.c030, &self.c040, &self.longs, 0, &[], g, i, write),
            )?;
        }
        Ok(())
    }
}

// ---- The 68030.

// As it is; the guard; another page; WP above; S for a user; no table; a bus error; a root that is none.
fn damage_030<P: Print>(rt: &P) -> io::Result<()> {
    let g = of_030();
    let changes = [
        (0x3004, 0),
        (0x3004, 0x66001),
        (0x2004, 0x3006),
        (0x2004, 0x4003),
        (0x1004, 0),
    ];
    print!(rt; "030")?;
    let mut s = Setting::new();
    s.show(rt, g)?;
    s.warm(g, false);
    s.show(rt, g)?;
    print!(rt; " |")?;
    s.show_changed(rt, g, &changes)?;
    let range = Range {
        first: 0x3004,
        last: 0x3004,
    };
    s.show_with(rt, 0, &[range], g)?;
    s.show(rt, rooted(30, 0x80C0_7760, 0x8000_0001))?;
    println!(rt; "")
}

// WP of the entry alone; with the guard: another shift of the cache, and of TC; an invalid entry; the other family.
fn harmless_030<P: Print>(rt: &P) -> io::Result<()> {
    let g = of_030();
    let mut s = Setting::new();
    s.warm(g, false);
    let warm = s.c030;
    print!(rt; "030 harmless")?;
    s.c030[PAGES] |= 1;
    s.show(rt, g)?;
    s.c030 = warm;
    s.store(0x3004, 0);
    s.show(rt, g)?;
    s.c030[SHIFT] = 13;
    s.show(rt, g)?;
    s.c030 = warm;
    s.show(rt, registers(30, 0x80C0_7750))?;
    s.show(rt, of_040())?;
    s.c030[0] &= 0xFFFF_FFFE;
    s.show(rt, g)?;
    println!(rt; "")
}

// The page of 02041ABC under each code, with the guard: an access has 1, 2, 5 or 6.
fn codes<P: Print>(rt: &P) -> io::Result<()> {
    let g = of_030();
    let mut s = Setting::new();
    s.warm(g, false);
    s.store(0x3004, 0);
    print!(rt; "codes")?;
    for code in 0..8 {
        s.c030[0] = 0x20411 + code * 2;
        s.show(rt, g)?;
    }
    println!(rt; "")
}

// The last entry; and from an index on, with entries 0, 7 and 21 stale.
fn places_030<P: Print>(rt: &P) -> io::Result<()> {
    let g = of_030();
    let mut s = Setting::new();
    s.warm(g, false);
    s.store(0x3004, 0);
    let tag = s.c030[0];
    s.c030[0] = 0;
    s.c030[21] = tag;
    print!(rt; "places")?;
    s.show(rt, g)?;
    s.c030[0] = tag;
    s.c030[7] = tag;
    for from in [0, 1, 8, 21, 22, 0xFFFF_FFFF] {
        s.show_from(rt, g, from)?;
    }
    println!(rt; "")
}

// ---- The 68040: as it is; the guard; another page; W; S; no table; W of the slot alone; the last slot; the other family.
fn case_040<P: Print>(rt: &P, supervisor: bool) -> io::Result<()> {
    let g = of_040();
    let mut s = Setting::new();
    s.warm(g, supervisor);
    let changes = [
        (0x3004, 0),
        (0x3004, 0x66001),
        (0x3004, 0x55005),
        (0x3004, 0x55081),
        (0x1004, 0),
    ];
    s.show(rt, g)?;
    print!(rt; " |")?;
    s.show_changed(rt, g, &changes)?;
    let base = s.c040[65];
    s.c040[65] = base | 2;
    s.show(rt, g)?;
    s.c040[65] = base;
    s.c040[63] = s.c040[1];
    s.show(rt, g)?;
    s.show_from(rt, g, 64)?;
    s.show(rt, of_030())?;
    println!(rt; "")
}

// ---- Refusals, in their order: all at once, then without the first of them.
fn refusals<P: Print>(rt: &P) -> io::Result<()> {
    let mut s = Setting::new();
    let crossed = [Range { first: 1, last: 0 }];
    s.c030[RECENT] = 22;
    print!(rt; "refusals")?;
    s.show_with(rt, 2, &crossed, registers(50, 0))?;
    s.show_with(rt, 2, &crossed, of_030())?;
    s.show_with(rt, 0, &crossed, of_030())?;
    s.show(rt, of_030())?;
    s.c030[RECENT] = 0;
    s.c030[SHIFT] = 32;
    s.show(rt, of_040())?;
    s.c030[SHIFT] = 31;
    s.show(rt, of_030())?;
    println!(rt; "")
}

// ---- What is said of an entry.

fn tell_hit<P: Print>(rt: &P, h: Option<u64>) -> io::Result<()> {
    match h {
        Some(base) => print!(rt; "{base:08x}"),
        None => print!(rt; "nothing"),
    }
}

fn tell_walk<P: Print>(rt: &P, t: Translation) -> io::Result<()> {
    match t {
        Translation::Address(x) => print!(rt; " A {x:08x}"),
        Translation::Fault {
            kind,
            cause,
            address,
        } => {
            index(rt, " F ", definition::kind_number(kind))?;
            index(rt, " ", definition::cause_number(cause))?;
            print!(rt; " {address:08x}")
        }
        Translation::Refused(n) => index(rt, " R", n),
    }
}

fn tell_finding<P: Print>(rt: &P, f: Finding) -> io::Result<()> {
    match f {
        Finding::Says {
            address,
            code,
            cached,
            tables,
        } => {
            print!(rt; "{address:08x}")?;
            index(rt, " ", code)?;
            print!(rt; " ")?;
            tell_hit(rt, cached)?;
            tell_walk(rt, tables)?;
        }
        Finding::Refused(n) => index(rt, "R", n)?,
    }
    println!(rt; "")
}

// Of the guard; of WP above; of an entry with WP; of an index past the end; of a supervisor's slot whose page has W; of what is refused.
fn findings<P: Print>(rt: &P) -> io::Result<()> {
    let mut g = of_030();
    let mut s = Setting::new();
    s.warm(g, false);
    s.store(0x3004, 0);
    g.tt0 = 0x00FF_8777;
    s.say(rt, g, 0)?;
    s.store_tables();
    s.store(0x2004, 0x3006);
    s.say(rt, g, 0)?;
    s.store_tables();
    s.c030[PAGES] |= 1;
    s.say(rt, g, 0)?;
    s.say(rt, g, 22)?;
    s.translate(of_040(), true);
    s.store(0x3004, 0x55005);
    s.say(rt, of_040(), 1)?;
    s.say(rt, registers(50, 0), 1)
}

fn main(rt: HostRuntime) -> io::Result<()> {
    damage_030(&rt)?;
    harmless_030(&rt)?;
    codes(&rt)?;
    places_030(&rt)?;
    print!(rt; "040 user")?;
    case_040(&rt, false)?;
    print!(rt; "040 supervisor")?;
    case_040(&rt, true)?;
    refusals(&rt)?;
    findings(&rt)
}
