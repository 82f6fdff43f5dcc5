//! The rounds that a replica keeps and executes.
ghost use Rattle.std.specs.Prelude.{◌≡◌, ◌+◌, length, IfSome, IfOk, OnOk, OnErr, IsTrue};
ghost use Rattle.std.specs.List.{filter};
ghost use Rattle.std.specs.Option.{option_copied, option_map};
ghost use Rattle.fab_machine.specs.Rounds.{certificate_for, knows_others, keep_answer, keep, next_round, after_round, ran_block, outcomes_at, chain, chain_at};
ghost use Rattle.fab_machine.specs.Sharing.{by_round};
ghost use Rattle.fab_rules.specs.Format.{batch_fits};
ghost use Rattle.fab_machine.specs.State.{fresh_rounds};
ghost use Rattle.round_exec.specs.Book.{are_clients, is_keepable, is_between, with_rounds, missing_of};
ghost use Rattle.round_exec.specs.Running.{ran_of};
ghost use Rattle.round_exec.specs.Done.{AreWhole};

use crate::NoMemory;
use crate::certificates::{Certificates, round_of};
use crate::executed::Executed;
use crate::gathering::{first_missing, gather, knows_others};
use crate::ran::Ran;
use crate::rising::rising;
use fab_base::{CommitCert, Hash32, Outcomes, Take};
use fab_rules::{Block, Blocks};
use msg_spell::batch_digest;
use std::alloc::Global;
use std::marker::Model;

/// Commit certificates, and the ledger of the rounds that were executed from them (GeoBFT). Contracts see it as a `Book`, whose rounds are
/// those of the machine of a replica.
#[derive(Drop)]
pub struct Rounds {
    certificates: Certificates,
    done: Executed,
}

impl Model for Rounds {
    ghost use Rattle.std.specs.Prelude.{◌≡◌, true};
    ghost use Rattle.std.specs.List.{list_all};
    ghost use Rattle.round_exec.specs.Book.{Book, is_keepable};

    ghost Value = { Book };

    ghost view = { λ r. record {
      clusters = r.done.clusters;
      clients = r.done.clients;
      rounds = record { executed = r.done.executed; certificates = r.certificates; blocks = r.done.blocks };
    } };

    ghost invariant = { λ r. list_all (is_keepable r.done.clusters r.done.clients) r.certificates ≡ true };
}

impl Rounds {
    /// None is kept, and no round is executed.
    pub(crate) fn new(alloc: Global, clusters: u8, clients: u8) -> Result<Rounds, NoMemory>
        ensures { IfOk result (λ made. made ≡ record { clusters = clusters; clients = clients; rounds = fresh_rounds }) }
    {
        Ok(Rounds {
            certificates: Certificates::new(alloc),
            done: Executed::new(alloc, clusters, clients)?,
        })
    }

    /// Keeps a certificate: of each round and cluster the first. A certificate of an executed round is answered `Past` with its round, a
    /// second one with the same digest `Twice`, and one with another digest `Conflict` with the digest of the first; none of these changes
    /// anything. It fails only where memory is refused, and then nothing has changed.
    ///
    /// The certificate is of one of the clusters, with a batch of this many clients that is within the greatest counts and lengths, for a
    /// slot from 1.
    pub fn keep(&mut self, cert: CommitCert) -> Result<Take, NoMemory>
        requires { IsTrue (is_keepable self.old.clusters self.old.clients cert) }
        ensures answer { IfOk result (λ take. take ≡ keep_answer self.old.rounds cert) }
        ensures kept { OnOk result (self.new ≡ with_rounds self.old (keep self.old.rounds cert)) }
        ensures err { OnErr result (self.new ≡ self.old) }
    {
        let answer = self.answer(&cert);
        if let Take::Taken = answer {
            self.certificates.add(cert)?;
        }
        Ok(answer)
    }

    /// Executes the next round where each cluster has a certificate of it: a block of each, in the order of the clusters, is applied to the
    /// table and joins the ledger. `NotYet` comes exactly where one is missing, and names the first; it changes nothing.
    ///
    /// It fails only where memory is refused, and then every round is as it was.
    pub fn execute(&mut self) -> Result<Ran, NoMemory>
        ensures answer { IfOk result (λ answer. answer ≡ ran_of (self.old.rounds.executed + 1) (next_round self.old.clusters self.old.rounds)) }
        ensures executed { OnOk result (self.new ≡ with_rounds self.old (after_round self.old.rounds (next_round self.old.clusters self.old.rounds))) }
        ensures err { OnErr result (self.new ≡ self.old) }
    {
        let round = self.done.next();
        match self.gathered()? {
            Ok(blocks) => {
                self.done.run(blocks)?;
                Ok(Ran::Executed { round })
            }
            Err(cluster) => Ok(Ran::NotYet { cluster }),
        }
    }

    /// The blocks of the next round, or the first cluster without a certificate of it.
    #[tactic(auto, using(crate::proofs::Gathered::next_sound))]
    fn gathered(&self) -> Result<Result<Blocks, u8>, NoMemory>
        ensures next { IfOk result (λ gathered. gathered ≡ next_round self.now.clusters self.now.rounds) }
        ensures whole { IfOk result (λ gathered. IfOk gathered (λ blocks. AreWhole self.now.clusters self.now.clients blocks)) }
    {
        gather(
            self.done.alloc(),
            &self.certificates,
            self.done.next(),
            self.done.clusters(),
        )
    }

    /// The first cluster without a certificate of the next round: `None` exactly where `execute` would execute it, want of memory aside.
    /// Takes no memory.
    pub fn missing(&self) -> Option<u8>
        ensures { result ≡ missing_of (next_round self.now.clusters self.now.rounds) }
    {
        first_missing(&self.certificates, self.done.next(), self.done.clusters())
    }

    /// Whether a certificate of another cluster than this one is kept for the round. Takes no memory.
    pub fn knows_others(&self, own: u8, round: u64) -> bool
        ensures { result ≡ knows_others own self.now.rounds.certificates round }
    {
        knows_others(&self.certificates, own, round, self.done.clusters())
    }

    /// The blocks of all executed rounds, the oldest first.
    pub fn ledger(&self) -> &Blocks
        ensures { result.now ≡ self.now.rounds.blocks }
    {
        self.done.ledger()
    }

    /// The number of executed rounds.
    pub fn executed(&self) -> u64
        ensures { result ≡ self.now.rounds.executed }
    {
        self.done.next() - 1
    }

    /// The next round to be executed, from 1.
    pub fn next(&self) -> u64
        ensures { result ≡ self.now.rounds.executed + 1 }
    {
        self.done.next()
    }

    /// The chain of the ledger.
    pub fn chain(&self) -> Hash32
        ensures { result ≡ chain self.now.rounds }
    {
        self.done.chain()
    }

    /// The chain of the ledger after this many rounds: `None` exactly where fewer were executed.
    pub fn chain_at(&self, round: u64) -> Option<Hash32>
        ensures { result ≡ chain_at self.now.clusters self.now.rounds round }
    {
        self.done.chain_at(round)
    }

    /// The block of a round and cluster: `None` exactly where the round wasn't executed or there is no such cluster.
    pub fn block(&self, round: u64, cluster: u8) -> Option<&Block>
        ensures is { option_copied result ≡ option_map (λ ran. ran.block) (ran_block self.now.clusters self.now.clients self.now.rounds round cluster) }
        ensures sound { IfSome result (λ block. IsTrue (batch_fits block.now.batch) × IsTrue (are_clients self.now.clients block.now.batch)) }
    {
        self.done.block(round, cluster)
    }

    /// What the requests of a block came to, one outcome each in their order: `None` exactly where there is no such block.
    pub fn outcomes(&self, round: u64, cluster: u8) -> Option<&Outcomes>
        ensures { option_copied result ≡ outcomes_at self.now.clusters self.now.clients self.now.rounds round cluster }
    {
        self.done.outcomes(round, cluster)
    }

    /// The kept certificate of a round and cluster. `None` comes exactly where none is kept.
    pub fn cert(&self, round: u64, cluster: u8) -> Option<&CommitCert>
        ensures { option_copied result ≡ certificate_for self.now.rounds.certificates round cluster }
    {
        self.certificates.of(round, cluster)
    }

    /// Copies of the kept certificates of a cluster that are of a round from one up to another, rounds rising. Of a round at most one is kept.
    /// It fails only where memory is refused.
    pub fn certs(&self, cluster: u8, from: u64, upto: u64) -> Result<Vec<CommitCert>, NoMemory>
        ensures { IfOk result (λ certs. certs.items ≡ by_round (filter (is_between cluster from upto) self.now.rounds.certificates)) }
    {
        rising(self.done.alloc(), &self.certificates, cluster, from, upto)
    }

    /// What a certificate is answered by [`keep`](Rounds::keep). Takes no memory.
    pub fn answer(&self, cert: &CommitCert) -> Take
        requires { IsTrue (is_keepable self.now.clusters self.now.clients cert.now) }
        ensures { result ≡ keep_answer self.now.rounds cert.now }
    {
        let round = round_of(cert);
        if round < self.done.next() {
            return Take::Past { at: round };
        }
        match self.certificates.of(round, cert.cluster) {
            None => Take::Taken,
            Some(first) => {
                let kept = batch_digest(&first.batch);
                if kept == batch_digest(&cert.batch) {
                    Take::Twice
                } else {
                    Take::Conflict { kept }
                }
            }
        }
    }
}
