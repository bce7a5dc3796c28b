/// Why a file was not read to its end.
#[derive(Clone, Copy, Debug, PartialEq, Eq, thiserror::Error)]
pub enum Slurp {
    /// A call of the shelf failed.
    #[error("read fault")]
    ReadFault,
    /// The file has more bytes than the limit.
    #[error("file is too long")]
    TooLong,
    /// Out of memory.
    #[error("out of memory")]
    Memory,
}
