//! What the definitions promise one another.
ghost use Rattle.std.specs.Prelude.{ℕ, ◌≡◌, ◌↔◌, ◌<◌, List, length};
ghost use Rattle.lms_tree.specs.declared.public.Public.{Public};
ghost use Rattle.lms_tree.specs.Heights.{leaf_count};
ghost use Rattle.lms_tree.specs.Keys.{TreeKey, public_of_key};
ghost use Rattle.lms_tree.specs.Signatures.{tree_signature};
ghost use Rattle.lms_tree.specs.Verdict.{verdict, Valid};

/// What a leaf signs is valid under the tree's root (RFC 8554, sections 5.3 and 5.4), for every key
/// of any height and kind, every leaf, randomizer and content.
pub fn leaf_signature_is_valid()
    ensures { (key : TreeKey) (q : ℕ) (randomizer content : List ℕ) → q < leaf_count key.height → length randomizer ≡ 32
        → Valid (public_of_key key) content (tree_signature key q randomizer content) }
{}

/// The verdict on a signature is good exactly where the signature is valid.
pub fn verdict_is_valid()
    ensures { (key : Public) (content signature : List ℕ) → (verdict key content signature ≡ Ok tt) ↔ Valid key content signature }
{}
