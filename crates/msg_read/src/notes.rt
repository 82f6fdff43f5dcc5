//! Pleas, notes and Fetches.
ghost use Rattle.std.specs.Prelude.{◌≡◌};
ghost use Rattle.msg_read.specs.Steps.{Gives};
ghost use Rattle.msg_read.specs.Reading.{plea_fields, outcome, line, lines, note_fields, ask_fields};

use crate::cursor::Cursor;
use crate::faults::DecodeFault;
use crate::listed::Listed;
use fab_base::{
    Ask, ClientId, LONGEST_VALUE, MOST_REQUESTS, Note, NoteLine, NoteLines, Outcome, Plea, Reply,
};
use fab_codec::CodeFault;

impl Cursor<'_> {
    /// A plea behind its tag.
    #[tactic(auto, unfolding(crate::specs::Reading::plea_fields))]
    pub(crate) fn plea_fields(&mut self) -> Result<Plea, DecodeFault>
        ensures { Gives (λ p. (p, self.new)) result (plea_fields self.old) }
    {
        let signer = self.signer(None)?;
        let target = self.u8()?;
        let round = self.u64()?;
        let count = self.u32()?;
        let sig = self.signature()?;
        Ok(Plea {
            signer,
            target,
            round,
            count,
            sig,
        })
    }

    #[tactic(auto, unfolding(crate::specs::Reading::outcome, crate::specs::Reading::found_fields))]
    fn outcome(&mut self) -> Result<Outcome, DecodeFault>
        ensures { Gives (λ o. (o, self.new)) result (outcome self.old) }
    {
        let place = self.place as u64;
        match self.u8()? {
            1 => Ok(Outcome::Done(Reply::Wrote)),
            2 => {
                let value = self.short_bytes(LONGEST_VALUE)?;
                Ok(Outcome::Done(Reply::Found(value)))
            }
            3 => Ok(Outcome::Done(Reply::Absent)),
            4 => Ok(Outcome::Again),
            5 => Ok(Outcome::Early),
            _ => Err(DecodeFault::Code(CodeFault::BadTag { place })),
        }
    }

    #[tactic(auto, unfolding(crate::specs::Reading::line))]
    fn line(&mut self) -> Result<NoteLine, DecodeFault>
        ensures { Gives (λ l. (l, self.new)) result (line self.old) }
    {
        let client = ClientId { number: self.u8()? };
        let stamp = self.u32()?;
        let outcome = self.outcome()?;
        Ok(NoteLine {
            client,
            stamp,
            outcome,
        })
    }

    #[tactic(auto, unfolding(crate::specs::Reading::lines))]
    fn lines(&mut self) -> Result<NoteLines, DecodeFault>
        ensures { Gives (λ l. (l, self.new)) result (lines self.old) }
    {
        let count = self.count(MOST_REQUESTS)?;
        self.items(0, count, ())
    }

    /// A note behind its tag.
    #[tactic(auto, unfolding(crate::specs::Reading::note_fields))]
    pub(crate) fn note_fields(&mut self) -> Result<Note, DecodeFault>
        ensures { Gives (λ n. (n, self.new)) result (note_fields self.old) }
    {
        let signer = self.signer(None)?;
        let round = self.u64()?;
        let digest = self.digest()?;
        let lines = self.lines()?;
        let sig = self.signature()?;
        Ok(Note {
            signer,
            round,
            digest,
            lines,
            sig,
        })
    }

    /// A Fetch behind its tag.
    #[tactic(auto, unfolding(crate::specs::Reading::ask_fields))]
    pub(crate) fn ask_fields(&mut self) -> Result<Ask, DecodeFault>
        ensures { Gives (λ a. (a, self.new)) result (ask_fields self.old) }
    {
        let asker = self.replica()?;
        let cluster = self.u8()?;
        let round = self.u64()?;
        Ok(Ask {
            asker,
            cluster,
            round,
        })
    }
}

impl Listed for NoteLine {
    ghost use Rattle.msg_read.specs.Reading.{line};

    type Last = ();

    ghost reads = { λ tag last. line };

    ghost keeps = { λ l. tt };

    fn read(cursor: &mut Cursor<'_>, _tag: u8, _last: ()) -> Result<NoteLine, DecodeFault> {
        cursor.line()
    }

    fn kept(&self) {}
}
