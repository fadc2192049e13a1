// The auditors and the lister: what is written of the caches or of the table tree that a trace leaves.
#![tactic(auto)]

mod audits;

use audits::Refused;
use listing::Asked;
use playing::{Over, Replay, Sheet, Watch};
use streams::{printed, written};

// An audit of the caches at the end: a line for each stale entry, and a last line that counts them.
#[derive(Clone, Copy)]
pub struct AtEnd;

impl Watch for AtEnd {
    const EACH: bool = false;

    fn end<H: Print + Eprint>(
        &mut self,
        rt: &H,
        replay: &Replay,
        sheet: &mut Sheet,
    ) -> Result<(), Over> {
        sheet.clear();
        match audits::name_stale(sheet, replay) {
            Ok(stale) => {
                let all = audits::entries(replay);
                if stale == 0 {
                    sheet.print(format_args!("clean: {all} entries\n"));
                } else {
                    sheet.print(format_args!("stale: {stale} of {all} entries\n"));
                }
            }
            Err(Refused(number)) => sheet.print(format_args!("R {number}\n")),
        }
        written(rt, sheet.as_bytes())?;
        Ok(())
    }
}

// An audit of the caches after each record: the first record that leaves a stale entry is named. So many records were played.
#[derive(Clone, Copy, Default)]
pub struct AfterEach {
    records: u64,
}

impl Watch for AfterEach {
    const EACH: bool = true;

    fn record<H: Print + Eprint>(
        &mut self,
        rt: &H,
        replay: &Replay,
        sheet: &mut Sheet,
    ) -> Result<(), Over> {
        self.records = self.records.saturating_add(1);
        sheet.clear();
        match audits::name_stale(sheet, replay) {
            Ok(0) => return Ok(()),
            Ok(_) => {
                let record = self.records;
                sheet.print(format_args!("stale after record {record}\n"));
            }
            Err(Refused(number)) => sheet.print(format_args!("R {number}\n")),
        }
        written(rt, sheet.as_bytes())?;
        Err(Over)
    }

    fn end<H: Print + Eprint>(
        &mut self,
        rt: &H,
        _replay: &Replay,
        _sheet: &mut Sheet,
    ) -> Result<(), Over> {
        let records = self.records;
        printed(rt, format_args!("clean after each of {records} records\n"))?;
        Ok(())
    }
}

// What the table tree maps at the end.
#[derive(Clone, Copy)]
pub struct Tree {
    pub asked: Asked,
}

impl Watch for Tree {
    const EACH: bool = false;

    fn end<H: Print + Eprint>(
        &mut self,
        rt: &H,
        replay: &Replay,
        _sheet: &mut Sheet,
    ) -> Result<(), Over> {
        let kept = replay.kept;
        let ranges = kept.ranges.as_slice();
        listing::listed(rt, &replay.longs, kept.registers, ranges, self.asked)?;
        Ok(())
    }
}
