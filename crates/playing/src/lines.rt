// The players: the replay's lines, and both caches after each record or not.
use crate::{Over, Replay, Sheet, Watch};
use states::State;
use streams::written;

// The lines alone.
#[derive(Clone, Copy)]
pub struct Lines;

impl Watch for Lines {
    const EACH: bool = false;

    fn lines<H: Print + Eprint>(&mut self, rt: &H, lines: &[u8]) -> Result<(), Over> {
        written(rt, lines)?;
        Ok(())
    }

    fn end<H: Print + Eprint>(
        &mut self,
        rt: &H,
        _replay: &Replay,
        _sheet: &mut Sheet,
    ) -> Result<(), Over> {
        written(rt, b"end\n")?;
        Ok(())
    }
}

// The lines, each record's with both caches after it.
#[derive(Clone, Copy)]
pub struct States;

impl Watch for States {
    const EACH: bool = true;

    fn lines<H: Print + Eprint>(&mut self, rt: &H, lines: &[u8]) -> Result<(), Over> {
        written(rt, lines)?;
        Ok(())
    }

    fn record<H: Print + Eprint>(
        &mut self,
        rt: &H,
        replay: &Replay,
        sheet: &mut Sheet,
    ) -> Result<(), Over> {
        let state = State {
            c030: &replay.c030,
            c040: &replay.c040,
        };
        sheet.clear();
        sheet.print(format_args!("{state}\n"));
        written(rt, sheet.as_bytes())?;
        Ok(())
    }

    fn end<H: Print + Eprint>(
        &mut self,
        rt: &H,
        _replay: &Replay,
        _sheet: &mut Sheet,
    ) -> Result<(), Over> {
        written(rt, b"end\n")?;
        Ok(())
    }
}
