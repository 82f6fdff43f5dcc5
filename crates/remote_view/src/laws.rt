//! What the answers are worth, over any list of calls, what is let go, and how much is kept.
ghost use Rattle.std.specs.Prelude.{◌≡◌, ◌≤◌, ◌+◌, ◌*◌, ◌++◌, [], ◌∷◌, ℕ, Bool, true, false, List, length, max, IsTrue};
ghost use Rattle.std.specs.List.{list_any};
ghost use Rattle.fab_base.specs.Limits.{Roster, IsWithinLimits};
ghost use Rattle.fab_base.specs.declared.limits.TheConstants.{MOST_MEMBERS, MOST_REPLICAS};
ghost use Rattle.fab_base.specs.declared.ids.ReplicaId.{ReplicaId};
ghost use Rattle.fab_base.specs.declared.messages.Plea.{Plea};
ghost use Rattle.fab_base.specs.Quorums.{greatest_faulty, IsQuorum, AreMembers};
ghost use Rattle.fab_base.specs.Roster.{size_of, is_replica};
ghost use Rattle.remote_view.specs.declared.bounds.TheConstants.{MOST_OPEN_PLEAS};
ghost use Rattle.remote_view.specs.declared.heard.Heard.{Heard};
ghost use Rattle.remote_view.specs.declared.heard.Matter.{Matter};
ghost use Rattle.remote_view.specs.declared.plight.Plight.{Plight};
ghost use Rattle.remote_view.specs.Heard.{has_matter, was_heard, members_on, is_on};
ghost use Rattle.remote_view.specs.Pleading.{Pleading, IsPleading, AreFew, MayHearDrvc, MayHearRvc, fresh, drvc_of, rvc_of, present_count, started_count, drvcs_are_full, drvc_plight, own_matter, say_answer, rvcs_are_full, rvc_plight, after_drvc, after_rvc, after_forgetting};
ghost use Rattle.remote_view.specs.Calls.{Call, MayCome, after_call, after_calls, MayFollow, AreOpen, forgets, sends, starts, says, gives, times, sent_with, started_with, greatest};
ghost use Rattle.remote_view.specs.Forgetting.{without_past, hoarding};

/// The law of once. Over any list of calls, from whatever was heard and said before: `Send` is answered at most once for each target,
/// round and count (`send`), `Start` at most once for each asking cluster and count (`start`), and a replica is told at most once to say
/// its own Drvc of a target, round and count, by `Join`, by a `Send` that joins or by `say` (`say`). For `send` and `say` nothing may be
/// asked of a target and round that were forgotten before; that is so where nothing is forgotten (`unforgotten`).
pub fn once_law()
    ensures send { (s : Pleading) (calls : List Call) (matter : Matter) → AreOpen calls → times (sends matter) s calls ≤ 1 }
    ensures start { (s : Pleading) (calls : List Call) (cluster count : ℕ) → times (starts cluster count) s calls ≤ 1 }
    ensures say { (s : Pleading) (calls : List Call) (matter : Matter) → AreOpen calls → times (says matter) s calls ≤ 1 }
    ensures unforgotten { (calls : List Call) → list_any forgets calls ≡ false → AreOpen calls }
{}

/// The law of members (GeoBFT). What is kept is whole, and calls keep it so (`stays`). Then behind `Send` stand the equal Drvcs of a
/// quorum of distinct members of the own cluster (`send`), behind `Join` those of f + 1 (`join`), and behind `Start` the equal Rvcs of
/// f + 1 distinct members of the cluster that asks, this one and those that counted before it (`start`). Among f + 1 members one is
/// correct, where no more than f are faulty.
pub fn members_law()
    ensures stays { (s : Pleading) (call : Call) → IsPleading s → MayCome s call → IsPleading (after_call s call) }
    ensures send { (s : Pleading) (plea : Plea) (joins : Bool) → IsPleading s → MayHearDrvc s plea → drvc_plight s (drvc_of plea) ≡ Plight.Send joins
        → let n = size_of s.roster s.me.cluster in
        IsQuorum n (members_on n (after_drvc s (drvc_of plea)).drvcs (drvc_of plea).matter) }
    ensures join { (s : Pleading) (plea : Plea) → IsPleading s → MayHearDrvc s plea → drvc_plight s (drvc_of plea) ≡ Plight.Join
        → let n = size_of s.roster s.me.cluster in
        AreMembers n (greatest_faulty n + 1) (members_on n (after_drvc s (drvc_of plea)).drvcs (drvc_of plea).matter) }
    ensures start { (s : Pleading) (plea : Plea) → IsPleading s → MayHearRvc s plea → rvc_plight s (rvc_of plea) ≡ Plight.Start
        → let n = size_of s.roster plea.signer.cluster in
        AreMembers n (greatest_faulty n + 1) (members_on n (s.rvcs ++ rvc_of plea ∷ []) (rvc_of plea).matter) }
{}

/// The law of counts (GeoBFT). Over any list of calls whose conditions hold the present count for a target becomes the greatest of what it was and one more
/// than the counts of the Drvcs on it that were answered `Send` (`present`), and the started count of a cluster the greatest of what it
/// was and one more than the counts of its Rvcs that were answered `Start` (`started`). Both begin at 0. So neither falls, forgetting or
/// not.
pub fn count_law()
    ensures present { (s : Pleading) (calls : List Call) (target : ℕ) → 1 ≤ target → MayFollow s calls
        → present_count (after_calls s calls) target ≡ max (present_count s target) (greatest (sent_with target) s calls) }
    ensures started { (s : Pleading) (calls : List Call) (cluster : ℕ) → 1 ≤ cluster → MayFollow s calls
        → started_count (after_calls s calls) cluster ≡ max (started_count s cluster) (greatest (started_with cluster) s calls) }
{}

/// The law of forgetting (ours). After `forget` each Drvc on another matter is answered as before it, where its signer wasn't at its
/// limit (`drvc`): who was may have room then. It is told as before whether the signer's equal one counts (`twice`) and whether this
/// replica said its own (`said`), `say` answers on other targets and rounds as before (`say`), and so is each Rvc answered (`rvc`).
/// That Rvcs are let go which are past changes no answer to an Rvc either, where its signer isn't at its limit (`past`), and so the
/// Rvcs after a `Start` are answered as if it had let go of none (`start`).
pub fn forgetting_law()
    ensures twice { (s : Pleading) (target round : ℕ) (plea : Heard) → is_on target round plea.matter ≡ false
        → was_heard (after_forgetting s target round).drvcs plea ≡ was_heard s.drvcs plea }
    ensures drvc { (s : Pleading) (target round : ℕ) (plea : Heard) → is_on target round plea.matter ≡ false → drvcs_are_full s plea ≡ false
        → drvc_plight (after_forgetting s target round) plea ≡ drvc_plight s plea }
    ensures said { (s : Pleading) (target round : ℕ) (matter : Matter) → is_on target round matter ≡ false
        → has_matter (after_forgetting s target round).said matter ≡ has_matter s.said matter }
    ensures say { (s : Pleading) (target round other_target other_round : ℕ) → is_on target round (own_matter s other_target other_round) ≡ false
        → say_answer (after_forgetting s target round) other_target other_round ≡ say_answer s other_target other_round }
    ensures rvc { (s : Pleading) (target round : ℕ) (plea : Heard) → rvc_plight (after_forgetting s target round) plea ≡ rvc_plight s plea }
    ensures past { (s : Pleading) (plea : Heard) → rvcs_are_full s plea ≡ false → rvc_plight (without_past s) plea ≡ rvc_plight s plea }
    ensures start { (s : Pleading) (plea other : Heard) → rvc_plight s plea ≡ Plight.Start → rvcs_are_full (hoarding s plea) other ≡ false
        → rvc_plight (after_rvc s plea) other ≡ rvc_plight (hoarding s plea) other }
{}

/// The law of bounds (ours). Where no signer has more than `MOST_OPEN_PLEAS` pleas of a kind that count, calls keep it so (`stays`), and
/// it is so from the first on, whatever is called (`few`). So no more than 640 Drvcs are kept (`drvcs`), and no more than 1,920 Rvcs, 64
/// for each replica (`rvcs`), over any calls whose conditions hold. Of what this replica said no more than 640 are kept beside those
/// that the caller had it say, at calls of `say` that gave a count (`said`): a join is kept as long as a Drvc on its matter.
pub fn bound_law()
    ensures stays { (s : Pleading) (call : Call) → AreFew s → AreFew (after_call s call) }
    ensures few { (r : Roster) (me : ReplicaId) (calls : List Call) → AreFew (after_calls (fresh r me) calls) }
    ensures drvcs { (r : Roster) (me : ReplicaId) (calls : List Call) → IsWithinLimits r → IsTrue (is_replica r me) → MayFollow (fresh r me) calls
        → length (after_calls (fresh r me) calls).drvcs ≤ MOST_OPEN_PLEAS * MOST_MEMBERS }
    ensures rvcs { (r : Roster) (me : ReplicaId) (calls : List Call) → IsWithinLimits r → IsTrue (is_replica r me) → MayFollow (fresh r me) calls
        → length (after_calls (fresh r me) calls).rvcs ≤ MOST_OPEN_PLEAS * MOST_REPLICAS }
    ensures said { (r : Roster) (me : ReplicaId) (calls : List Call) → IsWithinLimits r → IsTrue (is_replica r me) → MayFollow (fresh r me) calls
        → length (after_calls (fresh r me) calls).said ≤ MOST_OPEN_PLEAS * MOST_MEMBERS + times gives (fresh r me) calls }
{}
