//! Why the ledgers of correct replicas can't disagree: the laws of the fabric, stated and proved over definitions alone.
//!
//! Start with `safety_law`, and read its words: a *world* is who takes part, their public keys, who is faulty, what clients issued, and one
//! diary for each replica, in which each heard message is *sound* (`specs/World`; sound is `bft_verify`'s word: well formed, and each
//! statement in it validly signed); an *honest* diary keeps the rules of PBFT and GeoBFT (in `fab_rules`); a *safe* world is one whose
//! correct replicas agree (`specs/Safety`).
//! Nothing here mentions a replica's code. A handler keeps its replica's diary honest, and then the laws hold of every run.
//!
//! - `made_law`: where no signature of a correct signer is forged, each statement of it that a correct replica heard was made by it.
//! - `view0_law`: inside a cluster, while nobody leaves view 0.
//! - `clusters_law`: across clusters, given that each cluster commits one batch in a slot.
//! - `safety_law`: both, across view changes. This is the headline.
//! - `world_example`, `busy_world_example`, `pair_world_example`: worlds that meet the premises of the headline and have blocks in their
//!   ledgers: a replica alone; one with clients, a reply, a checkpoint and a change of view; two clusters with a Share and pleas. Their
//!   replicas sign by the leaves of keys made from any seed (`specs/Signing`).
//! - `choice_examples`, `spelling_examples`, `kinds_examples`, `null_digest_example`, `parts_examples`, `misfit_examples`,
//!   `refusal_examples`, `ledger_examples`: the definitions at work on small cases.
//!
//! A law is a function without parameters and with an empty body: its contract is the law. The steps of the proof are lemmas under
//! their names, in `proofs/`: `same_view`, `later_views` and `one_certificate` (`Voting`), `prefixes` (`Prefixes`), and what they
//! come to (`Headline`). From the signatures to what was said leads `Made`: what was heard is sound, and equal contents are equal
//! statements (`spelling_law` of `msg_read`).
//!
//! The laws say nothing of progress, of a cluster with more faulty members than it bears, of forged signatures, or of batches that
//! share a digest.
#![tactic(auto)]

mod agreement;
mod examples;
mod worlds;

pub use agreement::{clusters_law, made_law, safety_law, view0_law};
pub use examples::{
    choice_examples, kinds_examples, ledger_examples, misfit_examples, null_digest_example,
    parts_examples, refusal_examples, spelling_examples,
};
pub use worlds::{busy_world_example, pair_world_example, world_example};
