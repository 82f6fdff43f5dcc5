//! The definitions compute: small cases, worked out by hand.
ghost use Rattle.std.specs.Prelude.{◌≡◌, ℕ, false, List, [], ◌∷◌, ◌++◌};
ghost use Rattle.fab_base.specs.declared.ids.ReplicaId.{ReplicaId};
ghost use Rattle.fab_base.specs.declared.requests.Reply.TheVariants.{Wrote};
ghost use Rattle.fab_base.specs.declared.requests.Outcome.TheVariants.{Done, Again};
ghost use Rattle.fab_base.specs.declared.requests.Request.{Request};
ghost use Rattle.fab_base.specs.declared.messages.Vote.{Vote};
ghost use Rattle.fab_base.specs.declared.messages.StableVote.{StableVote};
ghost use Rattle.fab_base.specs.declared.messages.Message.{Message};
ghost use Rattle.fab_rules.specs.declared.blocks.Block.{Block};
ghost use Rattle.fab_rules.specs.declared.misfits.Misfit.{Misfit};
ghost use Rattle.fab_rules.specs.Spelling.{spelling_of_batch, spelling_of};
ghost use Rattle.fab_rules.specs.Digests.{batch_digest};
ghost use Rattle.fab_rules.specs.Statements.{parts_of, statements_of};
ghost use Rattle.fab_rules.specs.Choice.{base, top, chosen};
ghost use Rattle.fab_rules.specs.Shape.{misfits, first_misfit};
ghost use Rattle.fab_base.specs.Digests.{same_digest};
ghost use Rattle.fab_rules.specs.Ledger.{run, all_lines};
ghost use Rattle.fab_rules.specs.Diary.{Heard, Said, Did, ledger};
ghost use Rattle.world_laws.specs.Examples.{four, four_and_four, member, certificate, change, new_view, checkpoint, proved_change, change_with, three_votes, put_one, note_of, ask, in_eight, one_certificate, two_certificates, full_change, full_new_view, vote, proposal, put, share, plea, block, line, sevens};

/// A new view of a cluster of four. In view 1, with one certificate of view 0, slot 2 and batch b, the base is 0 and the top 2, slot 1
/// gets the null batch and slot 2 gets b. In view 2, with certificates of slot 2 from view 0 (batch a) and view 1 (batch b), it gets b.
pub fn choice_examples()
    ensures base { (b : List Request) (votes : List Vote) → base (one_certificate b votes) ≡ 0 }
    ensures top { (b : List Request) (votes : List Vote) → top (one_certificate b votes) ≡ 2 }
    ensures first_slot { (b : List Request) (votes : List Vote) → chosen (one_certificate b votes) 1 ≡ [] }
    ensures second_slot { (b : List Request) (votes : List Vote) → chosen (one_certificate b votes) 2 ≡ b }
    ensures later_view { (a b : List Request) (votes : List Vote) → chosen (two_certificates a b votes) 2 ≡ b }
{}

/// The bytes of a batch: of the null batch a count of 0; of one request (client 0, stamp 1, put `x` to `a`) a count of 1, and then the
/// tag, the client, the stamp, the operation with its key and value, and an empty signature.
pub fn spelling_examples()
    ensures null_batch { spelling_of_batch [] ≡ 0 ∷ [] }
    ensures one_request { spelling_of_batch (put 0 1 ∷ [])
        ≡ 1 ∷ 1 ∷ 0 ∷ 0 ∷ 0 ∷ 0 ∷ 1 ∷ 1 ∷ 1 ∷ 120 ∷ 1 ∷ 97 ∷ 0 ∷ 0 ∷ [] }
{}

/// A message of each kind, spelled: the format and the tag, the fields in their order, each number high byte first in as many bytes as
/// its field has, and behind a signed one the signature with two bytes for its length. Digests are 32 sevens, signatures are empty.
#[tactic(auto, unfolding(fab_rules::specs::Spelling::spelling_of))]
pub fn kinds_examples()
    ensures request { spelling_of (Message.Request (put_one 0 1)) ≡ 1 ∷ 1 ∷ 0 ∷ 0 ∷ 0 ∷ 0 ∷ 1 ∷ 1 ∷ 1 ∷ 97 ∷ 1 ∷ 49 ∷ 0 ∷ 0 ∷ [] }
    ensures pre_prepare { spelling_of (Message.PrePrepare (proposal 1 1 2 [])) ≡ 1 ∷ 2 ∷ 1 ∷ 1 ∷ in_eight 1 ++ in_eight 2 ++ 0 ∷ 0 ∷ 0 ∷ [] }
    ensures prepare { spelling_of (Message.Prepare (vote 3 1 2 sevens)) ≡ 1 ∷ 3 ∷ 1 ∷ 3 ∷ in_eight 1 ++ in_eight 2 ++ sevens.bytes ++ 0 ∷ 0 ∷ [] }
    ensures commit { spelling_of (Message.Commit (vote 3 1 2 sevens)) ≡ 1 ∷ 4 ∷ 1 ∷ 3 ∷ in_eight 1 ++ in_eight 2 ++ sevens.bytes ++ 0 ∷ 0 ∷ [] }
    ensures checkpoint { spelling_of (Message.Checkpoint (checkpoint 2 8)) ≡ 1 ∷ 5 ∷ 1 ∷ 2 ∷ in_eight 8 ++ sevens.bytes ++ 0 ∷ 0 ∷ [] }
    ensures view_change { spelling_of (Message.ViewChange (change_with 0 [] (vote 0 0 1 sevens ∷ [])))
        ≡ 1 ∷ 6 ∷ 1 ∷ 2 ∷ in_eight 1 ++ in_eight 0 ++ 0 ∷ 1 ∷ in_eight 0 ++ in_eight 1 ++ 0 ∷ 1 ∷ 3 ∷ 1 ∷ 0 ∷ in_eight 0 ++ in_eight 1 ++ sevens.bytes
        ++ 0 ∷ 0 ∷ 0 ∷ 0 ∷ [] }
    ensures new_view { spelling_of (Message.NewView (new_view 1 (change 0 1 [] ∷ [])))
        ≡ 1 ∷ 7 ∷ 1 ∷ 1 ∷ in_eight 1 ++ 1 ∷ 6 ∷ 1 ∷ 0 ∷ in_eight 1 ++ in_eight 0 ++ 0 ∷ 0 ∷ 0 ∷ 0 ∷ 0 ∷ 0 ∷ [] }
    ensures drvc { spelling_of (Message.Drvc (plea 2)) ≡ 1 ∷ 8 ∷ 1 ∷ 0 ∷ 2 ∷ in_eight 1 ++ 0 ∷ 0 ∷ 0 ∷ 0 ∷ 0 ∷ 0 ∷ [] }
    ensures rvc { spelling_of (Message.Rvc (plea 2)) ≡ 1 ∷ 9 ∷ 1 ∷ 0 ∷ 2 ∷ in_eight 1 ++ 0 ∷ 0 ∷ 0 ∷ 0 ∷ 0 ∷ 0 ∷ [] }
    ensures note { spelling_of (Message.ReplyNote (note_of (line 0 1 (Done Wrote) ∷ line 1 2 Again ∷ [])))
        ≡ 1 ∷ 10 ∷ 1 ∷ 0 ∷ in_eight 3 ++ sevens.bytes ++ 2 ∷ 0 ∷ 0 ∷ 0 ∷ 0 ∷ 1 ∷ 1 ∷ 1 ∷ 0 ∷ 0 ∷ 0 ∷ 2 ∷ 4 ∷ 0 ∷ 0 ∷ [] }
    ensures share { spelling_of (Message.Share (share (vote 0 0 5 sevens ∷ [])))
        ≡ 1 ∷ 11 ∷ 1 ∷ 0 ∷ 1 ∷ 4 ∷ 1 ∷ 0 ∷ in_eight 0 ++ in_eight 5 ++ sevens.bytes ++ 0 ∷ 0 ∷ [] }
    ensures fetch { spelling_of (Message.Fetch ask) ≡ 1 ∷ 12 ∷ 2 ∷ 3 ∷ 1 ∷ in_eight 5 }
{}

/// The digest of the null batch is SHA-256 of the byte 0.
pub fn null_digest_example()
    ensures { (batch_digest []).bytes
        ≡ 0x6e ∷ 0x34 ∷ 0x0b ∷ 0x9c ∷ 0xff ∷ 0xb3 ∷ 0x7a ∷ 0x98 ∷ 0x9c ∷ 0xa5 ∷ 0x44 ∷ 0xe6 ∷ 0xbb ∷ 0x78 ∷ 0x0a ∷ 0x2c
        ∷ 0x78 ∷ 0x90 ∷ 0x1d ∷ 0x3f ∷ 0xb3 ∷ 0x37 ∷ 0x38 ∷ 0x76 ∷ 0x85 ∷ 0x11 ∷ 0xa3 ∷ 0x06 ∷ 0x17 ∷ 0xaf ∷ 0xa0 ∷ 0x1d ∷ [] }
{}

/// The parts of a new view, in order: itself, and of each change the change, its proof, and of each certificate the requests and then
/// the Prepares. A Share is a part that nobody signed, so it is none of its statements.
pub fn parts_examples()
    ensures new_view { (x : StableVote) (r : Request) (v w : Vote) →
        parts_of (Message.NewView (full_new_view x r v w))
        ≡ Message.NewView (full_new_view x r v w) ∷ Message.ViewChange (full_change x r v w)
        ∷ Message.Checkpoint x ∷ Message.Request r ∷ Message.Prepare v ∷ Message.Prepare w ∷ Message.ViewChange (change 2 1 []) ∷ [] }
    ensures share { (v : Vote) → statements_of (Message.Share (share (v ∷ []))) ≡ Message.Commit v ∷ [] }
{}

/// What is wrong with small messages: a Prepare of a fifth member; one of slot 0; a proposal of view 1 by member 0 of a request of a
/// client that isn't there (all strangers come first); a plea for the own cluster; a Share without Commits; one whose Commits bear
/// another digest than its batch.
pub fn misfit_examples()
    ensures fifth_member { misfits four (Message.Prepare (vote 4 0 1 sevens)) ≡ Misfit.Stranger 0 ∷ [] }
    ensures no_slot { misfits four (Message.Prepare (vote 1 0 0 sevens)) ≡ Misfit.BadShape 0 ∷ [] }
    ensures proposed_by_another { misfits four (Message.PrePrepare (proposal 0 1 1 (put 2 1 ∷ [])))
        ≡ Misfit.Stranger 1 ∷ Misfit.BadShape 0 ∷ [] }
    ensures own_cluster { misfits four (Message.Drvc (plea 1)) ≡ Misfit.BadShape 0 ∷ [] }
    ensures no_commits { misfits four (Message.Share (share [])) ≡ Misfit.BadCert 0 ∷ [] }
    ensures other_digest { same_digest sevens (batch_digest []) ≡ false →
        misfits four (Message.Share (share (vote 0 0 1 sevens ∷ vote 1 0 1 sevens ∷ vote 2 0 1 sevens ∷ []))) ≡ Misfit.WrongDigest 0 ∷ [] }
    ensures none { misfits four (Message.PrePrepare (proposal 1 1 1 (put 0 1 ∷ put 1 1 ∷ []))) ≡ [] }
{}

/// What is answered to statements that are otherwise well formed, in two clusters of four: a proposal by another than the primary, and
/// one of another cluster's client; a Prepare of an eighth member; a Checkpoint of round 0; a change of low mark 0 with a proof, and one
/// whose proof is of another round than its mark; a change whose certificate is of the view that is asked for, and one whose batch was
/// replaced by the null batch; a new view with two changes, and one whose second change has a certificate of two Prepares; a plea to
/// the own cluster.
pub fn refusal_examples()
    ensures not_primary { first_misfit four_and_four (Message.PrePrepare (proposal 1 0 1 [])) ≡ Some (Misfit.BadShape 0) }
    ensures foreign_client { first_misfit four_and_four (Message.PrePrepare (proposal 0 0 1 (put 1 1 ∷ []))) ≡ Some (Misfit.BadShape 0) }
    ensures eighth_member { first_misfit four_and_four (Message.Prepare (vote 7 0 1 sevens)) ≡ Some (Misfit.Stranger 0) }
    ensures round_zero { first_misfit four_and_four (Message.Checkpoint (checkpoint 0 0)) ≡ Some (Misfit.BadShape 0) }
    ensures proof_at_zero { first_misfit four_and_four (Message.ViewChange (proved_change 0)) ≡ Some (Misfit.BadShape 0) }
    ensures other_round { first_misfit four_and_four (Message.ViewChange (proved_change 4)) ≡ Some (Misfit.BadCert 0) }
    ensures no_older_view { first_misfit four_and_four (Message.ViewChange (change_with 1 [] (three_votes 1))) ≡ Some (Misfit.BadShape 0) }
    ensures replaced_batch { same_digest sevens (batch_digest []) ≡ false →
        first_misfit four_and_four (Message.ViewChange (change_with 0 [] (three_votes 0))) ≡ Some (Misfit.WrongDigest 0) }
    ensures two_changes { first_misfit four_and_four (Message.NewView (new_view 1 (change 0 1 [] ∷ change 1 1 [] ∷ []))) ≡ Some (Misfit.BadShape 0) }
    ensures two_prepares { first_misfit four_and_four
        (Message.NewView (new_view 1 (change 0 1 [] ∷ change 1 1 (certificate 0 1 [] (vote 0 0 1 sevens ∷ vote 1 0 1 sevens ∷ []) ∷ []) ∷ change 2 1 [] ∷ [])))
        ≡ Some (Misfit.BadCert 2) }
    ensures own_cluster { first_misfit four_and_four (Message.Rvc (plea 1)) ≡ Some (Misfit.BadShape 0) }
{}

/// The ledger of a small diary, and a request that takes its place in it twice: it is done once.
pub fn ledger_examples()
    ensures ledger { (m n : Message) (a b : Block) → ledger (Said n ∷ Did b ∷ Heard n ∷ Did a ∷ Said m ∷ Heard m ∷ []) ≡ a ∷ b ∷ [] }
    ensures again { all_lines (run four (block 1 (put 0 1 ∷ []) ∷ block 2 (put 0 1 ∷ []) ∷ []))
        ≡ line 0 1 (Done Wrote) ∷ line 0 1 Again ∷ [] }
{}
