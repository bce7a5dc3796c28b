//! Writing the numbers of a pack file.
ghost use Rattle.std.specs.Prelude.{◌≡◌, ◌+◌, ◌%◌, ◌<◌};
ghost use Rattle.std.specs.Int.{w16, w32};
ghost use Rattle.tl_piece.specs.Added.{IsAdded};
ghost use Rattle.ppc_file.specs.Numbers.{sevens, spelled};

use crate::version::Version;
use tl_io::Sink;
use tl_piece::Writer;

// The lowest seven bits of a number, with the top bit set.
fn top(number: u32) -> u8
    ensures { result ≡ 128 + number % 128 }
{
    128 + (number % 128) as u8
}

// Writes a number as bytes of seven bits, the lowest bits first.
fn add_sevens<O: Sink>(number: u32, writer: &mut Writer<'_, O>)
    ensures { IsAdded O.seen writer.old (sevens 5 number) writer.new }
{
    let second = number / 128;
    let third = second / 128;
    let fourth = third / 128;
    let fifth = fourth / 128;
    if number < 128 {
        writer.add_text(&[number as u8]);
        return;
    }
    if second < 128 {
        writer.add_text(&[top(number), second as u8]);
        return;
    }
    if third < 128 {
        writer.add_text(&[top(number), top(second), third as u8]);
        return;
    }
    if fourth < 128 {
        writer.add_text(&[top(number), top(second), top(third), fourth as u8]);
        return;
    }
    let bytes = [
        top(number),
        top(second),
        top(third),
        top(fourth),
        fifth as u8,
    ];
    writer.add_text(&bytes);
}

/// Writes the number of a field that has two bytes in version 1.
pub(crate) fn add_short<O: Sink>(version: Version, number: u16, writer: &mut Writer<'_, O>)
    ensures { IsAdded O.seen writer.old (spelled version w16 number) writer.new }
{
    match version {
        Version::One => writer.add_text(&number.to_be_bytes()),
        Version::Two => add_sevens(number as u32, writer),
    }
}

/// Writes the number of a field that has four bytes in version 1.
pub(crate) fn add_number<O: Sink>(version: Version, number: u32, writer: &mut Writer<'_, O>)
    ensures { IsAdded O.seen writer.old (spelled version w32 number) writer.new }
{
    match version {
        Version::One => writer.add_text(&number.to_be_bytes()),
        Version::Two => add_sevens(number, writer),
    }
}
