// A row's parts: 12 numbers, the last of them n; n pairs, the address and value of a long; m; m pairs, a range's first and last;
// then the answers.
use crate::answers;
use definition::{Range, Registers, Root};
use memory::kept::RangeList;
use memory::tables::Tables;
use walk030::Walked;
use walk040::Walked040;

// A row, cut into these parts.
#[derive(Clone, Copy)]
pub struct Row<'a> {
    head: &'a [u32; 12],
    longs: &'a [u32],
    ranges: &'a [u32],
    pub answers: &'a [u32],
}

// What a walk is given. Its longs are lent: they are too many to be moved with the rest.
#[derive(Drop)]
pub struct Case<'a> {
    pub registers: Registers,
    pub address: u32,
    pub code: u32,
    pub write: bool,
    base: u32,
    longs: &'a [u32],
    ranges: RangeList,
}

impl Case<'_> {
    // What is lent to a walk.
    fn tables(&self) -> Tables<&[Range]> {
        Tables {
            longs: self.longs,
            base: self.base,
            ranges: self.ranges.as_slice(),
        }
    }

    // The walk of a 68030, of at most `limit` levels.
    pub fn walked_030(&self, limit: u32) -> Walked {
        walk030::walk(
            &self.tables(),
            self.registers,
            self.address,
            self.code,
            limit,
        )
    }

    // The walk of a 68040.
    pub fn walked_040(&self) -> Walked040 {
        walk040::walk(
            &self.tables(),
            self.registers,
            self.address,
            answers::is_supervisor(self.code),
        )
    }
}

impl<'a> Row<'a> {
    // The parts of a row, if it has a row's length. One with more parts than 128 numbers have room for beside 26 answers has none.
    pub fn cut(row: &'a [u32]) -> Option<Row<'a>> {
        let (head, rest) = row.split_first_chunk::<12>()?;
        let (longs, rest) = rest.split_at_checked(2 * head[11] as usize)?;
        let (n, rest) = rest.split_first()?;
        let (ranges, answers) = rest.split_at_checked(2 * *n as usize)?;
        if 102 < 13 + longs.len() + ranges.len() {
            return None;
        }
        Some(Row {
            head,
            longs,
            ranges,
            answers,
        })
    }

    // Stores the longs from the base on, of which a row has those that are not 0. None: one is outside.
    fn store(self, longs: &mut [u32; 8192]) -> Option<()> {
        for pair in self.longs.chunks_exact(2) {
            let offset = pair[0].checked_sub(self.head[9])?;
            if offset % 4 != 0 {
                return None;
            }
            *longs.get_mut((offset / 4) as usize)? = pair[1];
        }
        Some(())
    }

    // The row's ranges. None: there are more than sixteen.
    fn kept(self) -> Option<RangeList> {
        let mut kept = RangeList::new();
        for pair in self.ranges.chunks_exact(2) {
            let range = Range {
                first: pair[0],
                last: pair[1],
            };
            kept.push(range).ok()?;
        }
        Some(kept)
    }

    // The case over these longs, all 0 before, if its longs and its ranges have room: the PMMU is on, and no transparent register is
    // enabled.
    pub fn case(self, longs: &mut [u32; 8192]) -> Option<Case<'_>> {
        let head = self.head;
        if head[10] != 8192 {
            return None;
        }
        self.store(longs)?;
        Some(Case {
            registers: Registers {
                family: head[0],
                present: true,
                enabled: true,
                tc: head[1],
                crp: Root {
                    limit: head[2],
                    address: head[3],
                },
                srp: Root {
                    limit: head[4],
                    address: head[5],
                },
                tt0: 0,
                tt1: 0,
                itt0: 0,
                itt1: 0,
                dtt0: 0,
                dtt1: 0,
            },
            address: head[6],
            code: head[7],
            write: head[8] == 1,
            base: head[9],
            longs,
            ranges: self.kept()?,
        })
    }
}
