//! Whether each part of a message was made by its signer.
ghost use Rattle.std.specs.Prelude.{◌≡◌, IfOk, IsTrue, Some, map};
ghost use Rattle.fab_base.specs.declared.ids.Who.{Who};
ghost use Rattle.fab_rules.specs.Format.{fits};
ghost use Rattle.fab_rules.specs.Statements.{parts_of};
ghost use Rattle.run_worlds.specs.Sights.{is_asked_by, is_made_by, first_forged};
ghost use Rattle.script_keys.specs.Requests.{asked_content};
ghost use Rattle.fabric_audit.specs.Makers.{IsOfPart};

use crate::content_sets::ContentSet;
use crate::signers::Signers;
use bft_msg::{Judge, judge_parts};
use fab_base::{Bytes, ClientId, Message, NoMemory, Who};
use run_words::Transcript;
use std::alloc::Global;
use std::marker::Model;

/// Why a part passes no audit.
#[derive(Drop)]
pub(crate) enum Unmade {
    /// Its signer didn't make it.
    By(Who),
    /// Memory was refused.
    NoMemory,
}

/// Who made which statements in a run: what the correct replicas signed, and what the script has the clients ask for. It is also the judge,
/// of each part of a message, whether its signer made it. A contract sees the run.
#[derive(Drop)]
pub(crate) struct Makers<'a> {
    alloc: Global,
    transcript: &'a Transcript,
    signers: Signers<'a>,
    asked: ContentSet<'a>,
}

impl<'a> Model for Makers<'a> {
    ghost use Rattle.run_words.specs.declared.logs.Transcript.{Transcript};
    ghost use Rattle.fabric_audit.specs.Makers.{AreMakers};

    ghost Value = { Transcript };

    ghost view = { λ m. m.transcript.now };

    ghost invariant = { λ m. AreMakers m.transcript.now m.signers m.asked };
}

impl<'a> Makers<'a> {
    /// Who made the statements of a run. The contents of the script's requests, in its order, are given, to be borrowed. It fails only
    /// where memory is refused.
    pub(crate) fn of(
        alloc: Global,
        transcript: &'a Transcript,
        asked: &'a [Bytes],
    ) -> Result<Makers<'a>, NoMemory>
        requires { asked.now ≡ map asked_content transcript.now.script.requests }
        ensures { IfOk result (λ makers. makers ≡ transcript.now) }
    {
        let signers = Signers::of(alloc, transcript.traces.as_slice())?;
        let asked = ContentSet::of(alloc, asked)?;
        Ok(Makers {
            alloc,
            transcript,
            signers,
            asked,
        })
    }

    /// The run.
    pub(crate) fn transcript(&self) -> &'a Transcript
        ensures { result.now ≡ self.now }
    {
        self.transcript
    }

    /// Whether the script has the client make a request with this content, which names the client.
    fn has_asked(&self, client: ClientId, content: &[u8]) -> bool
        requires { IsOfPart (Who.Client client) content.now }
        ensures { result ≡ is_asked_by self.now.script client content.now }
    {
        self.asked.has(content)
    }

    /// Whether the signer of a part with this content made it: a replica signed it, or the script has a client ask for it. Of a faulty
    /// replica nothing is asked.
    fn has_made(&self, signer: Who, content: &[u8]) -> bool
        requires { IsOfPart signer content.now }
        ensures { result ≡ is_made_by self.now (Some signer) content.now }
    {
        match signer {
            Who::Replica(replica) => self.signers.has_signed(replica, content),
            Who::Client(client) => self.has_asked(client, content),
        }
    }

    /// The signer of the first part of a message that its signer didn't make, if there is one.
    pub(crate) fn first_forged(&self, message: &Message) -> Result<Option<Who>, NoMemory>
        requires { IsTrue (fits message.now) }
        ensures { IfOk result (λ signer. signer ≡ first_forged self.now (parts_of message.now)) }
    {
        match judge_parts(self.alloc, self, message) {
            Ok(()) => Ok(None),
            Err(Unmade::By(signer)) => Ok(Some(signer)),
            Err(Unmade::NoMemory) => Err(NoMemory),
        }
    }
}

impl<'a> Judge for Makers<'a> {
    ghost use Rattle.std.specs.Prelude.{refl};
    ghost use Rattle.run_worlds.specs.Sights.{is_made_by};
    ghost use Rattle.fabric_audit.specs.Forgeries.{IsFree, unmade_by};

    type Fault = Unmade;

    ghost wrong = { λ t k who content signature. unmade_by (is_made_by t who content) who };

    ghost free = { IsFree };

    fn judge(
        &self,
        _part: u32,
        signer: Who,
        content: &[u8],
        _signature: &[u8],
    ) -> Result<(), Unmade> {
        if self.has_made(signer, content) {
            Ok(())
        } else {
            Err(Unmade::By(signer))
        }
    }

    fn no_memory(&self) -> Unmade {
        Unmade::NoMemory
    }

    ghost unsigned = { λ t k content signature. refl };
}
