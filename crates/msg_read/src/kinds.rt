//! A message: its tag says its kind.
ghost use Rattle.std.specs.Prelude.{◌≡◌};
ghost use Rattle.msg_read.specs.Steps.{Gives};
ghost use Rattle.msg_read.specs.Reading.{message};

use crate::cursor::Cursor;
use crate::faults::DecodeFault;
use fab_base::Message;
use fab_codec::CodeFault;

impl Cursor<'_> {
    /// A message.
    #[tactic(auto, unfolding(crate::specs::Reading::message))]
    pub(crate) fn message(&mut self) -> Result<Message, DecodeFault>
        ensures { Gives (λ m. (m, self.new)) result (message self.old) }
    {
        let place = self.place as u64;
        match self.u8()? {
            1 => self.request_fields().map(Message::Request),
            2 => self.proposal_fields().map(Message::PrePrepare),
            3 => self.vote_fields(None).map(Message::Prepare),
            4 => self.vote_fields(None).map(Message::Commit),
            5 => self.checkpoint_fields(None).map(Message::Checkpoint),
            6 => self.view_change_fields(None).map(Message::ViewChange),
            7 => self.new_view_fields().map(Message::NewView),
            8 => self.plea_fields().map(Message::Drvc),
            9 => self.plea_fields().map(Message::Rvc),
            10 => self.note_fields().map(Message::ReplyNote),
            11 => self.share_fields().map(Message::Share),
            12 => self.ask_fields().map(Message::Fetch),
            _ => Err(DecodeFault::Code(CodeFault::BadTag { place })),
        }
    }
}
