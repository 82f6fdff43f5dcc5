//! Equality that means equality: what a value must offer to be counted.

ghost use Rattle.std.specs.Prelude.{◌≡◌, true};

/// A value that can be counted: it can be copied, and its `==` is true of equal values alone. `Eq` says only that `==` is an
/// equivalence, under which senders of different values might count as agreeing (ours).
pub trait Exact: Copy + Eq {
    ghost exact: { (x y : Self) → Self.eq x y ≡ true → x ≡ y };
}

/// Bytes are equal where they are the same number.
impl Exact for u8 {
    ghost use Rattle.std.proofs.Common.{eqb-true};

    ghost exact = { eqb-true };
}
