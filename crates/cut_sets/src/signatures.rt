//! The signature of a list of leaves: a word in which bit (leaf mod 64) is set for each leaf.
ghost use Rattle.std.specs.Prelude.{◌≡◌};
ghost use Rattle.cut_sets.specs.Signature.{leaf_bit as bit_of, signature_of};

/// The word with the bit of one leaf.
pub fn leaf_bit(leaf: u32) -> u64
    ensures { result ≡ bit_of leaf }
{
    1 << (leaf % 64)
}

/// The bits of all leaves.
pub fn signature(leaves: &[u32]) -> u64
    ensures { result ≡ signature_of leaves.now }
{
    let mut word = 0;
    for leaf in leaves {
        word |= leaf_bit(*leaf);
    }
    word
}
