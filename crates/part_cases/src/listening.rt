//! One replica that hears pleas.
ghost use Rattle.std.specs.Prelude.{◌≡◌};
ghost use Rattle.fab_base.specs.Roster.{is_cluster};

use crate::words::Unanswered;
use fab_base::{Bytes, GREATEST_COUNT, Members, Plea, ReplicaId, Who};
use remote_view::{Pleas, Plight, pleas};
use std::alloc::Global;

/// The replica, and what it has heard.
#[derive(Drop)]
pub(crate) struct Listening {
    alloc: Global,
    members: Members,
    me: ReplicaId,
    pleas: Pleas,
    ghost its_members: { pleas.roster ≡ members },
    ghost its_own: { pleas.me ≡ me },
}

impl Listening {
    /// A replica that has heard nothing.
    pub(crate) fn begin(
        alloc: Global,
        members: &Members,
        me: ReplicaId,
    ) -> Result<Listening, Unanswered> {
        if !members.has(Who::Replica(me)) {
            return Err(Unanswered::Unreadable);
        }
        let pleas = pleas(alloc, members, me)?;
        let members = members.share()?;
        Ok(Listening {
            alloc,
            members,
            me,
            pleas,
        })
    }

    /// Hears a Drvc.
    pub(crate) fn drvc(
        &mut self,
        signer: ReplicaId,
        target: u8,
        round: u64,
        count: u32,
    ) -> Result<String, Unanswered> {
        if signer.cluster != self.me.cluster
            || !self.members.has(Who::Replica(signer))
            || !has_cluster(&self.members, target)
            || count > GREATEST_COUNT
        {
            return Err(Unanswered::Unreadable);
        }
        let plea = Plea {
            signer,
            target,
            round,
            count,
            sig: Bytes::new(self.alloc),
        };
        let plight = self.pleas.hear_drvc(&plea)?;
        let text = plight_text(self.alloc, plight)?;
        let ReplicaId { cluster, index } = signer;
        Ok(format!(in self.alloc;
            "{cluster}.{index} says that {target} is missing in round {round}, count {count}: {text}"
        )?)
    }

    /// Hears an Rvc.
    pub(crate) fn rvc(
        &mut self,
        signer: ReplicaId,
        target: u8,
        round: u64,
        count: u32,
    ) -> Result<String, Unanswered> {
        if target != self.me.cluster
            || !self.members.has(Who::Replica(signer))
            || count > GREATEST_COUNT
        {
            return Err(Unanswered::Unreadable);
        }
        let plea = Plea {
            signer,
            target,
            round,
            count,
            sig: Bytes::new(self.alloc),
        };
        let plight = self.pleas.hear_rvc(&plea)?;
        let text = plight_text(self.alloc, plight)?;
        let ReplicaId { cluster, index } = signer;
        Ok(format!(in self.alloc;
            "{cluster}.{index} asks {target} for round {round}, count {count}: {text}"
        )?)
    }

    /// Says a Drvc.
    pub(crate) fn say(&mut self, target: u8, round: u64) -> Result<String, Unanswered> {
        if !has_cluster(&self.members, target) {
            return Err(Unanswered::Unreadable);
        }
        match self.pleas.say(target, round)? {
            Some(count) => Ok(format!(in self.alloc;
                "I say that {target} is missing in round {round}, count {count}"
            )?),
            None => Ok(format!(in self.alloc;
                "I said before that {target} is missing in round {round}"
            )?),
        }
    }

    /// The present count, and whether the replica said its Drvc.
    pub(crate) fn count(&self, target: u8, round: u64) -> Result<String, Unanswered> {
        if !has_cluster(&self.members, target) {
            return Err(Unanswered::Unreadable);
        }
        let count = self.pleas.count(target);
        let said = if self.pleas.said(target, round) {
            "said"
        } else {
            "not said"
        };
        Ok(format!(in self.alloc; "the count for {target} is {count}, round {round} is {said}")?)
    }
}

/// What comes of a plea, in words.
fn plight_text(alloc: Global, plight: Plight) -> Result<String, Unanswered> {
    let text = match plight {
        Plight::Past { at } => return Ok(format!(in alloc; "past, they are at count {at}")?),
        Plight::Kept => "kept",
        Plight::Twice => "twice",
        Plight::Join => "join",
        Plight::Send { joins: true } => "send, and join",
        Plight::Send { joins: false } => "send",
        Plight::Start => "start",
    };
    Ok(String::from_str(alloc, text)?)
}

/// Whether the members have this cluster.
fn has_cluster(members: &Members, cluster: u8) -> bool
    ensures { result ≡ is_cluster members.now cluster }
{
    cluster >= 1 && cluster <= members.clusters()
}
