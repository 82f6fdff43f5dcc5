//! The parameter sets of RFC 8554, section 5.1.
ghost use Rattle.std.specs.Prelude.{◌≡◌};

/// A parameter set of LMS with SHA-256 and m = 32 (RFC 8554, section 5.1). The number in the name is
/// h, the number of levels below the root: a tree has 2^h leaves, and its key signs as often.
#[derive(Clone, Copy, Debug, PartialEq, Eq)]
pub enum Height {
    /// 32 leaves.
    H5,
    /// 1,024 leaves.
    H10,
    /// 32,768 leaves.
    H15,
    /// 1,048,576 leaves.
    H20,
    /// 33,554,432 leaves.
    H25,
}

impl Height {
    ghost use Rattle.lms_tree.specs.Heights.{levels, leaf_count, tree_code, height_of_code};

    /// h: the number of levels below the root, which is the number of nodes of a path.
    pub fn levels(self) -> u8
        ensures { result ≡ levels self }
    {
        match self {
            Height::H5 => 5,
            Height::H10 => 10,
            Height::H15 => 15,
            Height::H20 => 20,
            Height::H25 => 25,
        }
    }

    /// 2^h: the number of leaves.
    pub fn leaf_count(self) -> u32
        ensures { result ≡ leaf_count self }
    {
        match self {
            Height::H5 => 32,
            Height::H10 => 1_024,
            Height::H15 => 32_768,
            Height::H20 => 1_048_576,
            Height::H25 => 33_554_432,
        }
    }

    /// The number of the type, which stands in each public key and signature (RFC 8554, section 5.1).
    pub fn type_code(self) -> u32
        ensures { result ≡ tree_code self }
    {
        match self {
            Height::H5 => 5,
            Height::H10 => 6,
            Height::H15 => 7,
            Height::H20 => 8,
            Height::H25 => 9,
        }
    }

    /// The height whose type has this number, and `None` exactly where it is not one of the five.
    pub fn from_type_code(code: u32) -> Option<Height>
        ensures { result ≡ height_of_code code }
    {
        match code {
            5 => Some(Height::H5),
            6 => Some(Height::H10),
            7 => Some(Height::H15),
            8 => Some(Height::H20),
            9 => Some(Height::H25),
            _ => None,
        }
    }
}
