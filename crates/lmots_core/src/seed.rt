//! What all one-time keys of one tree are derived from.
use std::fmt;

/// The identifier and the secret of a tree, from which the keys of all its leaves are derived
/// (RFC 8554, appendix A). Printed for debugging (`{:?}`) it shows the identifier alone.
#[derive(Clone, Copy, PartialEq, Eq)]
pub struct OtsSeed {
    /// I, the public identifier of 16 bytes. Each tree is to have its own.
    pub id: [u8; 16],
    /// SEED, the secret of 32 bytes.
    pub seed: [u8; 32],
}

impl fmt::Debug for OtsSeed {
    ghost use Rattle.std.specs.Prelude.{Some};
    ghost use Rattle.std.specs.Fmt.{◌++?◌, decimal, debug_list};
    ghost use lib.Chars.{codes};

    // What is printed is a function of the identifier.
    ghost debug_output = { λ s. Some (codes "OtsSeed { id: ") ++? debug_list (λ n. Some (decimal n)) s.id ++? Some (codes ", .. }") };

    fn fmt<W: fmt::Write>(&self, f: &mut fmt::Formatter<W>) -> fmt::Result {
        let id = self.id.as_slice();
        write!(f, "OtsSeed {{ id: {id:?}, .. }}")
    }
}
