//! Writing a whole piece to a `std::io::Write`.
ghost use Rattle.std.specs.Prelude.{◌<◌, OnOk, OnErr, length};
ghost use Rattle.std.specs.Io.KnownBytes.{Appends};

use crate::Failed;
use std::io::Write;

/// Writes all of the piece to a `std::io::Write`, in as many calls of `write` as it needs. An empty piece needs none.
///
/// # Errors
/// `Failed` if a `write` returns an error or takes no bytes. The piece then has at least one byte.
pub fn write_whole<W: Write>(writer: &mut W, piece: &[u8]) -> Result<(), Failed>
    ensures ok { OnOk result (Appends (W.contents writer.old) (W.contents writer.new) piece.now) }
    ensures err { OnErr result (0 < length piece.now) }
{
    let mut rest = piece;
    while !rest.is_empty() {
        match writer.write(rest) {
            Ok(count) if count > 0 => rest = &rest[count..],
            _ => return Err(Failed),
        }
    }
    Ok(())
}
