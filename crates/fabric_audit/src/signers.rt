//! What each correct replica signed.
ghost use Rattle.std.specs.Prelude.{◌≡◌, ℕ, List, IfOk, OnOk, if◌then◌else◌};
ghost use Rattle.std.specs.List.{list_any};
ghost use Rattle.std.specs.Str.{bytes_eq};
ghost use Rattle.fab_base.specs.declared.ids.ReplicaId.{ReplicaId};
ghost use Rattle.run_words.specs.Keyed.{is_same};
ghost use Rattle.run_worlds.specs.Sights.{is_signed_by};
ghost use Rattle.run_worlds.specs.Worlds.{correct_of};
ghost use Rattle.fabric_audit.specs.Makers.{has_signed};

use crate::content_sets::ContentSet;
use crate::correct::is_correct;
use fab_base::{NoMemory, ReplicaId};
use run_words::Trace;
use std::alloc::Global;
use std::collections::BTreeMap;
use std::marker::Model;

/// The contents that each correct replica of a run signed, found by the replica. A contract sees the pairs of replicas and sets.
#[derive(Drop)]
pub(crate) struct Signers<'a> {
    sets: BTreeMap<ReplicaId, ContentSet<'a>>,
}

impl<'a> Model for Signers<'a> {
    ghost use Rattle.std.specs.Prelude.{ℕ, List};
    ghost use Rattle.fab_base.specs.declared.ids.ReplicaId.{ReplicaId};

    ghost Value = { List (ReplicaId × List (List ℕ)) };

    ghost view = { λ s. s.sets.entries };
}

impl<'a> Signers<'a> {
    /// What the correct ones of the replicas signed that left these traces. It fails only where memory is refused.
    pub(crate) fn of(alloc: Global, traces: &'a [Trace]) -> Result<Signers<'a>, NoMemory>
        ensures { IfOk result (λ signers. (i : ReplicaId) (x : List ℕ) → has_signed signers i x ≡ is_signed_by (correct_of traces.now) i x) }
    {
        let mut signers = Signers {
            sets: BTreeMap::new(alloc),
        };
        let mut left = traces.len();
        while left > 0 {
            left -= 1;
            let trace = &traces[left];
            if is_correct(trace) {
                signers.put(trace.id, ContentSet::of(alloc, trace.signed.as_slice())?)?;
            }
        }
        Ok(signers)
    }

    /// Gives a replica its set, in place of one that it had. It fails only where memory is refused.
    fn put(&mut self, signer: ReplicaId, set: ContentSet<'a>) -> Result<(), NoMemory>
        ensures { OnOk result ((i : ReplicaId) (x : List ℕ) → has_signed self.new i x
            ≡ (if is_same i signer then list_any (bytes_eq x) set.entry else has_signed self.old i x)) }
    {
        self.sets.insert(signer, set)?;
        Ok(())
    }

    /// Whether a replica signed a content. Of one that takes no part or is faulty nothing is asked.
    pub(crate) fn has_signed(&self, signer: ReplicaId, content: &[u8]) -> bool
        ensures { result ≡ has_signed self.now signer content.now }
    {
        match self.sets.get(&signer) {
            Some(set) => set.has(content),
            None => true,
        }
    }
}
