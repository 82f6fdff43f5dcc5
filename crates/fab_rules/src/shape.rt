//! What the shape of a message is worth.
ghost use Rattle.fab_base.specs.Limits.{Roster};
ghost use Rattle.fab_base.specs.declared.messages.NewView.{NewView};
ghost use Rattle.fab_base.specs.declared.messages.Message.{Message};
ghost use Rattle.fab_rules.specs.Shape.{IsShaped};
ghost use Rattle.fab_rules.specs.Quoted.{IsShownBy};

/// The law of shape: a new view in which there is no misfit shows what the laws of agreement take of it. A quorum of distinct members
/// of its cluster ask for its view, and each certificate that they report has a quorum of distinct members' Prepares, for its view,
/// slot and batch, of an older view.
pub fn shape_law()
    ensures { (r : Roster) (x : NewView) → IsShaped r (Message.NewView x) → IsShownBy r x }
{}
