//! The choice of a new view: what it is, and that one pass finds it.
ghost use Rattle.std.specs.Prelude.{◌≡◌, ℕ, ◌≤◌, List, Option, None, max, fold};
ghost use Rattle.fab_base.specs.declared.messages.PreparedCert.{PreparedCert};
ghost use Rattle.fab_base.specs.declared.messages.ViewChange.{ViewChange};
ghost use Rattle.fab_base.specs.declared.messages.NewView.{NewView};
ghost use Rattle.fab_rules.specs.Lists.{In};
ghost use Rattle.fab_rules.specs.Choice.{certificates_of, base, top, deciding, IsDecided, better};

/// The law of the choice (PBFT, section 4.4). No change of a new view has a greater low mark than its base, no certificate a greater
/// slot than its top, and no certificate of a slot is of a later view than the deciding one. And one pass finds each of them: a pass
/// over the low marks, a pass over the slots that begins with the base, and a pass in which only a greater view replaces what is kept.
pub fn choice_law()
    ensures base_is_greatest { (x : NewView) (c : ViewChange) → In c x.changes → c.low ≤ base x }
    ensures top_is_greatest { (x : NewView) (k : PreparedCert) → In k (certificates_of x) → k.slot ≤ top x }
    ensures latest_decides { (x : NewView) (slot : ℕ) (k : PreparedCert) → In k (certificates_of x) → k.slot ≡ slot → IsDecided x slot k }
    ensures base_by_pass { (x : NewView) → fold (λ low c. max low c.low) 0 x.changes ≡ base x }
    ensures top_by_pass { (x : NewView) → fold (λ slot k. max slot k.slot) (base x) (certificates_of x) ≡ top x }
    ensures deciding_by_pass { (x : NewView) (slot : ℕ) → fold (better slot) None (certificates_of x) ≡ deciding x slot }
{}
