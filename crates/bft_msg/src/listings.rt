//! The lists inside a message.
ghost use Rattle.std.specs.Prelude.{◌+◌, ◌<◌, ◌^◌, ◌++◌, length};
ghost use Rattle.std.specs.List.{AllByRecursion};
ghost use Rattle.bft_msg.specs.Passing.{Passes};

use crate::check::Check;
use fab_base::{PreparedCert, Request, StableVote, ViewChange, Vote};

/// A kind of list inside a message, by what is listed: a statement, or what holds some. `parts` are those of an item, `listed` those
/// of a list of them.
pub(crate) trait Listing {
    ghost use Rattle.std.specs.Prelude.{◌≡◌, ◌+◌, ◌<◌, ◌^◌, List, length};
    ghost use Rattle.std.specs.List.{AllByRecursion, flat_map};
    ghost use Rattle.fab_base.specs.declared.messages.Message.{Message};
    ghost use Rattle.bft_msg.specs.Passing.{Passes};

    /// What is listed.
    type Item;

    ghost parts: { Self.Item → List Message };

    ghost listed: { List Self.Item → List Message };

    /// Asks of each part of an item, the first of which has this number. Answers the number behind the last.
    fn walk<C: Check>(check: &C, first: u32, item: &Self::Item) -> Result<u32, C::Fault>
        requires room { first + length (parts item.now) < 2 ^ 32 }
        requires may { AllByRecursion (C.may check.now) (parts item.now) }
        ensures { Passes C.free (C.wrong check.now) first (parts item.now) result };

    ghost lists: { (items : List Self.Item) → listed items ≡ flat_map parts items };
}

/// Asks of each part of all items, the first of which has this number. Answers the number behind the last.
pub(crate) fn walk_all<L: Listing, C: Check>(
    check: &C,
    first: u32,
    items: &[L::Item],
) -> Result<u32, C::Fault>
    requires room { first + length (L.listed items.now) < 2 ^ 32 }
    requires may { AllByRecursion (C.may check.now) (L.listed items.now) }
    ensures { Passes C.free (C.wrong check.now) first (L.listed items.now) result }
{
    let mut part = first;
    for item in items {
        part = L::walk(check, part, item)?;
    }
    Ok(part)
}

/// Asks of each part of the items of one list, and then of another.
pub(crate) fn walk_both<L: Listing, M: Listing, C: Check>(
    check: &C,
    first: u32,
    items: &[L::Item],
    others: &[M::Item],
) -> Result<u32, C::Fault>
    requires room { first + length (L.listed items.now ++ M.listed others.now) < 2 ^ 32 }
    requires may { AllByRecursion (C.may check.now) (L.listed items.now ++ M.listed others.now) }
    ensures { Passes C.free (C.wrong check.now) first (L.listed items.now ++ M.listed others.now) result }
{
    let next = walk_all::<L, C>(check, first, items)?;
    walk_all::<M, C>(check, next, others)
}

/// The requests of a batch.
pub(crate) struct Requests;

impl Listing for Requests {
    ghost use Rattle.std.specs.Prelude.{[], ◌∷◌, map};
    ghost use Rattle.std.proofs.Common.{sym};
    ghost use Rattle.std.proofs.lemmas.List.Concat.{flat_map_single};
    ghost use Rattle.fab_base.specs.declared.messages.Message.{Message};

    type Item = Request;

    ghost parts = { λ x. Message.Request x ∷ [] };

    ghost listed = { map Message.Request };

    fn walk<C: Check>(check: &C, first: u32, item: &Request) -> Result<u32, C::Fault> {
        check.request(first, item)?;
        Ok(first + 1)
    }

    ghost lists = { λ xs. sym (flat_map_single Message.Request xs) };
}

/// The Prepares of a prepared certificate.
pub(crate) struct Prepares;

impl Listing for Prepares {
    ghost use Rattle.std.specs.Prelude.{[], ◌∷◌, map};
    ghost use Rattle.std.proofs.Common.{sym};
    ghost use Rattle.std.proofs.lemmas.List.Concat.{flat_map_single};
    ghost use Rattle.fab_base.specs.declared.messages.Message.{Message};

    type Item = Vote;

    ghost parts = { λ x. Message.Prepare x ∷ [] };

    ghost listed = { map Message.Prepare };

    fn walk<C: Check>(check: &C, first: u32, item: &Vote) -> Result<u32, C::Fault> {
        check.prepare(first, item)?;
        Ok(first + 1)
    }

    ghost lists = { λ xs. sym (flat_map_single Message.Prepare xs) };
}

/// The Commits of a commit certificate.
pub(crate) struct Commits;

impl Listing for Commits {
    ghost use Rattle.std.specs.Prelude.{[], ◌∷◌, map};
    ghost use Rattle.std.proofs.Common.{sym};
    ghost use Rattle.std.proofs.lemmas.List.Concat.{flat_map_single};
    ghost use Rattle.fab_base.specs.declared.messages.Message.{Message};

    type Item = Vote;

    ghost parts = { λ x. Message.Commit x ∷ [] };

    ghost listed = { map Message.Commit };

    fn walk<C: Check>(check: &C, first: u32, item: &Vote) -> Result<u32, C::Fault> {
        check.commit(first, item)?;
        Ok(first + 1)
    }

    ghost lists = { λ xs. sym (flat_map_single Message.Commit xs) };
}

/// The Checkpoints of a proof.
pub(crate) struct Checkpoints;

impl Listing for Checkpoints {
    ghost use Rattle.std.specs.Prelude.{[], ◌∷◌, map};
    ghost use Rattle.std.proofs.Common.{sym};
    ghost use Rattle.std.proofs.lemmas.List.Concat.{flat_map_single};
    ghost use Rattle.fab_base.specs.declared.messages.Message.{Message};

    type Item = StableVote;

    ghost parts = { λ x. Message.Checkpoint x ∷ [] };

    ghost listed = { map Message.Checkpoint };

    fn walk<C: Check>(check: &C, first: u32, item: &StableVote) -> Result<u32, C::Fault> {
        check.checkpoint(first, item)?;
        Ok(first + 1)
    }

    ghost lists = { λ xs. sym (flat_map_single Message.Checkpoint xs) };
}

/// The prepared certificates of a view change.
pub(crate) struct Certificates;

impl Listing for Certificates {
    ghost use Rattle.std.specs.Prelude.{refl};
    ghost use Rattle.std.specs.List.{flat_map};
    ghost use Rattle.fab_rules.specs.Statements.{parts_of_certificate};

    type Item = PreparedCert;

    ghost parts = { parts_of_certificate };

    ghost listed = { flat_map parts_of_certificate };

    fn walk<C: Check>(check: &C, first: u32, item: &PreparedCert) -> Result<u32, C::Fault> {
        walk_both::<Requests, Prepares, C>(
            check,
            first,
            item.batch.as_slice(),
            item.votes.as_slice(),
        )
    }

    ghost lists = { λ xs. refl };
}

/// The view changes of a new view.
pub(crate) struct Changes;

impl Listing for Changes {
    ghost use Rattle.std.specs.Prelude.{refl};
    ghost use Rattle.std.specs.List.{flat_map};
    ghost use Rattle.fab_rules.specs.Statements.{parts_of_change};

    type Item = ViewChange;

    ghost parts = { parts_of_change };

    ghost listed = { flat_map parts_of_change };

    fn walk<C: Check>(check: &C, first: u32, item: &ViewChange) -> Result<u32, C::Fault> {
        check.view_change(first, item)?;
        walk_both::<Checkpoints, Certificates, C>(
            check,
            first + 1,
            item.proof.as_slice(),
            item.prepared.as_slice(),
        )
    }

    ghost lists = { λ xs. refl };
}
