//! Rules stay kept as a diary grows.
ghost use Rattle.std.specs.Prelude.{Bool, List, ◌∷◌};
ghost use Rattle.std.specs.List.{filter};
ghost use Rattle.fab_base.specs.Limits.{Roster};
ghost use Rattle.fab_base.specs.declared.ids.ReplicaId.{ReplicaId};
ghost use Rattle.fab_base.specs.declared.messages.Message.{Message};
ghost use Rattle.fab_rules.specs.declared.blocks.Block.{Block};
ghost use Rattle.fab_rules.specs.Diary.{Entry, Heard, Did};
ghost use Rattle.fab_rules.specs.Rules.{MaySay, KeepsRules};
ghost use Rattle.fab_rules.specs.Growth.{HasGrown, after_saying};

/// The law of growth: what might be said may still be said once more was heard or done and no more was said (`one`). So may all that
/// waits to be said, in its order (`waiting`), and all of it that is left where some is taken out (`fewer`). A diary grows by whatever
/// is heard (`heard`) and done (`done`).
pub fn rules_stay_kept_law()
    ensures heard { (diary : List Entry) (m : Message) → HasGrown diary (Heard m ∷ diary) }
    ensures done { (diary : List Entry) (block : Block) → HasGrown diary (Did block ∷ diary) }
    ensures one { (r : Roster) (i : ReplicaId) (a b : List Entry) (m : Message) → HasGrown a b → MaySay r i a m → MaySay r i b m }
    ensures waiting { (r : Roster) (i : ReplicaId) (a b : List Entry) (items : List Message) → HasGrown a b → KeepsRules r i b
        → KeepsRules r i (after_saying a items) → KeepsRules r i (after_saying b items) }
    ensures fewer { (r : Roster) (i : ReplicaId) (a b : List Entry) (stays : Message → Bool) (items : List Message) → HasGrown a b
        → KeepsRules r i b → KeepsRules r i (after_saying a items) → KeepsRules r i (after_saying b (filter stays items)) }
{}
