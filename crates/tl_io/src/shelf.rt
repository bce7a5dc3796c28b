//! The trait of shelves of files.
ghost use Rattle.std.specs.Prelude.{◌≡◌, ◌-◌, ◌^◌, ◌≤◌, IsTrue, OnErr, false, take};
ghost use Rattle.tl_io.specs.Causes.{HasCause};
ghost use Rattle.tl_io.specs.Content.{Puts};
ghost use Rattle.tl_io.specs.Shelf.{ShelfSeen, Begins, BeginsWrite, Pulls, apart, written};

use crate::Failed;
use crate::told_name::NAME_ROOM;

/// Files by name. One file at a time is read or written, in pieces.
///
/// `begin_read` and `begin_write` end any earlier reading or writing. `begin_read` and `pull` change no file, and a
/// failure raises only the count of read faults. A failure of `begin_write` or `push` raises only the count of write
/// faults.
pub trait Shelf {
    /// The value that contracts see.
    ghost seen: { Self → ShelfSeen };

    /// Starts to read the file of this name at its first byte.
    ///
    /// # Errors
    /// `Failed` if the file can't be read, for example because it doesn't exist. No file is being read then.
    fn begin_read(&mut self, name: &str) -> Result<(), Failed>
        ensures cause { HasCause (seen self.old).read_faults (seen self.new).read_faults result }
        ensures begins { Begins (seen self.old) name.now (seen self.new) result }
        ensures ends_writing { (seen self.new).is_writing ≡ false }
        ensures name { (seen self.new).name ≡ take NAME_ROOM name.now }
        ensures given { (seen self.new).given ≡ 0 }
        ensures before { (seen self.new).before ≡ (seen self.old).read_faults }
        ensures files { (seen self.new).files ≡ (seen self.old).files }
        ensures write_faults { (seen self.new).write_faults ≡ (seen self.old).write_faults };

    /// Copies the next bytes of the file that is being read to the front of the buffer, and returns their number. `Ok(0)`
    /// for a buffer that isn't empty means the end of the file.
    ///
    /// # Errors
    /// `Failed` gives no bytes. The buffer is unchanged, and the file is still being read.
    fn pull(&mut self, buf: &mut [u8]) -> Result<usize, Failed>
        requires { IsTrue (seen self.old).is_reading }
        ensures cause { HasCause (seen self.old).read_faults (seen self.new).read_faults result }
        ensures pulls { Pulls (seen self.old) (seen self.new) buf.new result }
        ensures kept { OnErr result (buf.new ≡ buf.old) }
        ensures reading { IsTrue (seen self.new).is_reading }
        ensures is_writing { (seen self.new).is_writing ≡ (seen self.old).is_writing }
        ensures writing { (seen self.new).writing ≡ (seen self.old).writing }
        ensures name { (seen self.new).name ≡ (seen self.old).name }
        ensures before { (seen self.new).before ≡ (seen self.old).before }
        ensures files { (seen self.new).files ≡ (seen self.old).files }
        ensures write_faults { (seen self.new).write_faults ≡ (seen self.old).write_faults };

    /// Creates or empties the file of this name and starts to write it.
    ///
    /// # Errors
    /// `Failed` if the file can't be written. It is unchanged or empty, and no file is being written.
    fn begin_write(&mut self, name: &str) -> Result<(), Failed>
        ensures cause { HasCause (seen self.old).write_faults (seen self.new).write_faults result }
        ensures begins { BeginsWrite (seen self.old) name.now (seen self.new) result }
        ensures ends_reading { (seen self.new).is_reading ≡ false }
        ensures name { (seen self.new).name ≡ (seen self.old).name }
        ensures given { (seen self.new).given ≡ (seen self.old).given }
        ensures before { (seen self.new).before ≡ (seen self.old).before }
        ensures read_faults { (seen self.new).read_faults ≡ (seen self.old).read_faults };

    /// Appends the piece to the file that is being written, and changes nothing else.
    ///
    /// # Errors
    /// `Failed` if not all of the piece was written. A prefix of it is appended that is shorter than the piece, so an empty
    /// piece never fails. The file is still being written.
    fn push(&mut self, piece: &[u8]) -> Result<(), Failed>
        requires { IsTrue (seen self.old).is_writing }
        ensures cause { HasCause (seen self.old).write_faults (seen self.new).write_faults result }
        ensures grown { Puts (written (seen self.old)) (written (seen self.new)) piece.now result }
        ensures writing { IsTrue (seen self.new).is_writing }
        ensures apart { apart (seen self.new) ≡ apart (seen self.old) };

    /// The count of read faults is at most 2^64 - 1.
    ghost read_faults_end: { (shelf : Self) → (seen shelf).read_faults ≤ 2 ^ 64 - 1 };

    /// The count of write faults is at most 2^64 - 1.
    ghost write_faults_end: { (shelf : Self) → (seen shelf).write_faults ≤ 2 ^ 64 - 1 };
}
