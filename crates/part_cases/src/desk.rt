//! The cases, one after another.
use crate::fabric::fabric;
use crate::listening::Listening;
use crate::receiving::receivers;
use crate::views::Views;
use crate::words::{Unanswered, count, number, replica, small};
use fab_base::Members;
use std::alloc::{AllocError, Global};

/// What the cases so far have begun.
#[derive(Drop)]
pub(crate) struct Desk {
    alloc: Global,
    views: Views,
    members: Option<Members>,
    listening: Option<Listening>,
}

impl Desk {
    /// Nothing is begun.
    pub(crate) fn new(alloc: Global) -> Desk {
        Desk {
            alloc,
            views: Views::begin(alloc, 1),
            members: None,
            listening: None,
        }
    }

    /// The answer to a line. It fails only where memory is refused.
    pub(crate) fn answer(&mut self, line: &str) -> Result<String, AllocError> {
        if line.starts_with('#') || line.is_empty() {
            return String::from_str(self.alloc, line);
        }
        match self.case(line) {
            Ok(answer) => Ok(answer),
            Err(Unanswered::Unreadable) => String::from_str(self.alloc, "unreadable"),
            Err(Unanswered::NoMemory) => Err(AllocError),
        }
    }

    /// The answer to a case: what is begun, or what is asked of it.
    fn case(&mut self, line: &str) -> Result<String, Unanswered> {
        let words: Vec<&str> = line.split(' ').collect(self.alloc)?;
        match words.as_slice() {
            ["view", view] => self.begin_view(view),
            ["fabric", sizes @ ..] => self.begin_fabric(sizes),
            ["replica", id] => self.begin_replica(id),
            _ => self.asked(words.as_slice()),
        }
    }

    fn begin_view(&mut self, view: &str) -> Result<String, Unanswered> {
        let number = number(view)?;
        self.views = Views::begin(self.alloc, number);
        Ok(format!(in self.alloc; "view {number}")?)
    }

    fn begin_fabric(&mut self, sizes: &[&str]) -> Result<String, Unanswered> {
        let members = fabric(self.alloc, sizes)?;
        let number = members.clusters();
        self.members = Some(members);
        Ok(format!(in self.alloc; "clusters: {number}")?)
    }

    fn begin_replica(&mut self, id: &str) -> Result<String, Unanswered> {
        let Some(members) = &self.members else {
            return Err(Unanswered::Unreadable);
        };
        let listening = Listening::begin(self.alloc, members, replica(id)?)?;
        self.listening = Some(listening);
        Ok(format!(in self.alloc; "{id} listens")?)
    }

    /// The answer about a new view, or about receivers.
    fn asked(&mut self, words: &[&str]) -> Result<String, Unanswered> {
        match words {
            ["certificate", slot, view, batch] => {
                self.views.certify(number(slot)?, number(view)?, batch)
            }
            ["change", member, low] => self.views.change(small(member)?, number(low)?),
            ["choose"] => self.views.choose(),
            ["chosen", slot] => self.views.chosen(number(slot)?),
            ["receivers", rounds] => self.receivers(rounds),
            _ => self.heard(words),
        }
    }

    fn receivers(&self, rounds: &str) -> Result<String, Unanswered> {
        match &self.members {
            Some(members) => receivers(self.alloc, members, number(rounds)?),
            None => Err(Unanswered::Unreadable),
        }
    }

    /// The answer of the replica that listens.
    fn heard(&mut self, words: &[&str]) -> Result<String, Unanswered> {
        let Some(listening) = &mut self.listening else {
            return Err(Unanswered::Unreadable);
        };
        match words {
            ["drvc", id, target, round, said] => {
                listening.drvc(replica(id)?, small(target)?, number(round)?, count(said)?)
            }
            ["rvc", id, target, round, said] => {
                listening.rvc(replica(id)?, small(target)?, number(round)?, count(said)?)
            }
            ["say", target, round] => listening.say(small(target)?, number(round)?),
            ["count", target, round] => listening.count(small(target)?, number(round)?),
            _ => Err(Unanswered::Unreadable),
        }
    }
}
