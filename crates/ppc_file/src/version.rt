//! The versions of a pack file.

/// A version of the pack file.
#[derive(Clone, Copy, Debug, PartialEq, Eq)]
pub enum Version {
    /// Numbers of two or four bytes, big-endian.
    One,
    /// Numbers of one to five bytes of seven bits, the lowest bits first, and fan-ins as differences.
    Two,
}
