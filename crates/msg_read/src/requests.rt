//! Requests, batches and proposals.
ghost use Rattle.std.specs.Prelude.{◌≡◌};
ghost use Rattle.msg_read.specs.Steps.{Gives};
ghost use Rattle.msg_read.specs.Reading.{put_fields, get_fields, cut_fields, swap_fields, op, request_fields, request, batch, proposal_fields};

use crate::cursor::Cursor;
use crate::faults::DecodeFault;
use crate::listed::Listed;
use fab_base::{
    Batch, ClientId, LONGEST_KEY, LONGEST_VALUE, MOST_REQUESTS, Op, PrePrepare, Request,
};
use fab_codec::CodeFault;

impl Cursor<'_> {
    #[tactic(auto, unfolding(crate::specs::Reading::put_fields))]
    fn put_fields(&mut self) -> Result<Op, DecodeFault>
        ensures { Gives (λ op. (op, self.new)) result (put_fields self.old) }
    {
        let key = self.short_bytes(LONGEST_KEY)?;
        let value = self.short_bytes(LONGEST_VALUE)?;
        Ok(Op::Put { key, value })
    }

    #[tactic(auto, unfolding(crate::specs::Reading::get_fields))]
    fn get_fields(&mut self) -> Result<Op, DecodeFault>
        ensures { Gives (λ op. (op, self.new)) result (get_fields self.old) }
    {
        let key = self.short_bytes(LONGEST_KEY)?;
        Ok(Op::Get { key })
    }

    #[tactic(auto, unfolding(crate::specs::Reading::cut_fields))]
    fn cut_fields(&mut self) -> Result<Op, DecodeFault>
        ensures { Gives (λ op. (op, self.new)) result (cut_fields self.old) }
    {
        let key = self.short_bytes(LONGEST_KEY)?;
        Ok(Op::Cut { key })
    }

    #[tactic(auto, unfolding(crate::specs::Reading::swap_fields))]
    fn swap_fields(&mut self) -> Result<Op, DecodeFault>
        ensures { Gives (λ op. (op, self.new)) result (swap_fields self.old) }
    {
        let key = self.short_bytes(LONGEST_KEY)?;
        let expected = self.short_bytes(LONGEST_VALUE)?;
        let fresh = self.short_bytes(LONGEST_VALUE)?;
        Ok(Op::Swap {
            key,
            expected,
            fresh,
        })
    }

    /// An operation.
    #[tactic(auto, unfolding(crate::specs::Reading::op))]
    fn op(&mut self) -> Result<Op, DecodeFault>
        ensures { Gives (λ op. (op, self.new)) result (op self.old) }
    {
        let place = self.place as u64;
        match self.u8()? {
            1 => self.put_fields(),
            2 => self.get_fields(),
            3 => self.cut_fields(),
            4 => self.swap_fields(),
            _ => Err(DecodeFault::Code(CodeFault::BadTag { place })),
        }
    }

    /// A request behind its tag.
    #[tactic(auto, unfolding(crate::specs::Reading::request_fields))]
    pub(crate) fn request_fields(&mut self) -> Result<Request, DecodeFault>
        ensures { Gives (λ r. (r, self.new)) result (request_fields self.old) }
    {
        let client = ClientId { number: self.u8()? };
        let stamp = self.u32()?;
        let op = self.op()?;
        let sig = self.signature()?;
        Ok(Request {
            client,
            stamp,
            op,
            sig,
        })
    }

    /// A batch.
    #[tactic(auto, unfolding(crate::specs::Reading::batch))]
    pub(crate) fn batch(&mut self) -> Result<Batch, DecodeFault>
        ensures { Gives (λ b. (b, self.new)) result (batch self.old) }
    {
        let count = self.count(MOST_REQUESTS)?;
        self.items(1, count, ())
    }

    /// A proposal behind its tag.
    #[tactic(auto, unfolding(crate::specs::Reading::proposal_fields))]
    pub(crate) fn proposal_fields(&mut self) -> Result<PrePrepare, DecodeFault>
        ensures { Gives (λ p. (p, self.new)) result (proposal_fields self.old) }
    {
        let signer = self.signer(None)?;
        let view = self.u64()?;
        let slot = self.u64()?;
        let batch = self.batch()?;
        let sig = self.signature()?;
        Ok(PrePrepare {
            signer,
            view,
            slot,
            batch,
            sig,
        })
    }
}

impl Listed for Request {
    ghost use Rattle.msg_read.specs.Reading.{request};

    type Last = ();

    ghost reads = { λ tag last. request };

    ghost keeps = { λ r. tt };

    #[tactic(auto, unfolding(crate::specs::Reading::request))]
    fn read(cursor: &mut Cursor<'_>, _tag: u8, _last: ()) -> Result<Request, DecodeFault> {
        cursor.tagged(1)?;
        cursor.request_fields()
    }

    fn kept(&self) {}
}
