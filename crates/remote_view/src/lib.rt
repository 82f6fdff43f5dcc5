//! Remote view change (GeoBFT): how a cluster that misses another's certificate makes that cluster change its view.
//!
//! Members of the cluster that misses it say Drvcs to each other. Once a quorum has said the same, each that hears so sends an Rvc to
//! the target. Once members of the target hear the same from f + 1 of a cluster, they ask for their next view. Each plea bears a count,
//! so that a view change answers it once. `Pleas` is one replica's part in this: what it heard and said, and what is now to be done.
//!
//! - `pleas(alloc, &members, me)` makes it. No call of the others but `say`, `hear_drvc` and `hear_rvc` takes memory.
//! - At a timeout `say(target, round)` notes that this replica says a Drvc and gives the count to say it with; it gives None where that
//!   is noted already, as `said` tells beforehand. `count(target)` is the count.
//! - For each Drvc that is heard, the own ones too, call `hear_drvc`. At `Join` say the Drvc with the plea's target, round and count. At
//!   `Send` send the Rvc, and where it has `joins` say the Drvc first.
//! - For each Rvc that is heard call `hear_rvc`. At `Start` note which cluster asks for which round, and ask for the next view. Who passes
//!   on each Rvc that counts asks `rvc_counts` before: a `Kept` doesn't tell, and one that doesn't count would go round for ever.
//! - Where a certificate is newly kept call `forget(target, round)`, and from then on give no Drvc on it to `hear_drvc`.
//!
//! A replica's core, in short, where `kept` says whether it keeps the certificate of a cluster and a round:
//!
//! ```text
//! Message::Drvc(plea) if kept(plea.target, plea.round) => share(plea.signer)?,
//! Message::Drvc(plea) => {
//!     let plight = pleas.hear_drvc(&plea)?;
//!     if matches!(plight, Plight::Join | Plight::Send { joins: true }) {
//!         put_drvc(plea.target, plea.round, plea.count)?;
//!     }
//!     if matches!(plight, Plight::Send { .. }) {
//!         put_rvc(plea.target, plea.round, plea.count)?;
//!     }
//! }
//! Message::Share(cert) if keep(&cert)? => pleas.forget(cert.cluster, cert.round),
//! ```
//!
//! **Bounds** (ours). Of each signer no more than `MOST_OPEN_PLEAS` Drvcs and as many Rvcs count at once; a further one is `Kept` and
//! doesn't count, so who fills its own share shuts out nobody else. What `forget` lets go, and the past Rvcs at a `Start`, make room
//! again: without them an honest member would be shut out in a long run, by pleas that never reach a quorum since the certificate came
//! first. "The f + 1st equal one" and "a quorum" are therefore numbers of pleas that count.
//!
//! What a contract sees is a `Pleading` (`specs/Pleading.antt`): the lists of the pleas that count, in the order of hearing, what was
//! said, and the counts of the clusters; each call is a function of it. `once_law` says that nothing is answered twice, over any list of
//! calls; `members_law` who stands behind an answer; `count_law` what the counts come from; `forgetting_law` that what is let go changes no
//! other answer; `bound_law` how much is kept. The lemmas of `proofs/Matters.antt` and `proofs/Worth.antt` may be cited: among the latter
//! `drvc_cases`, `rvc_cases` and `say_cases`, by which whatever holds of the cases holds of what a call leaves. Signatures aren't
//! looked at.
#![tactic(auto)]

mod book;
mod bounds;
mod heard;
mod laws;
mod making;
mod pleading;
mod plight;

pub use bounds::MOST_OPEN_PLEAS;
pub use fab_base::NoMemory;
pub use laws::{bound_law, count_law, forgetting_law, members_law, once_law};
pub use making::pleas;
pub use pleading::Pleas;
pub use plight::Plight;
