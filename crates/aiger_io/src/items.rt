//! Reading all lines of inputs, latches, outputs and AND gates.
ghost use Rattle.std.specs.Prelude.{◌≡◌, ◌+◌, ◌<◌, ◌≤◌, ◌^◌, [], length, map, Ok, Err, IfOk, MatchResult};
ghost use Rattle.tl_fault.specs.OrMemory.{OrMemory};
ghost use Rattle.aiger_io.specs.Reader.{items_from, item_count};
ghost use Rattle.aiger_io.specs.Refusals.{refusal_of};

use crate::aag_err::AagErr;
use crate::header::Header;
use crate::item::Item;
use crate::item_line::read_item;
use std::alloc::Global;

/// The number of such lines according to a header.
pub(crate) fn count(header: &Header) -> u64
    ensures { result ≡ item_count header.now }
{
    header.inputs as u64 + header.latches as u64 + header.outputs as u64 + header.ands as u64
}

/// The content of these lines, given the lines after the header.
///
/// # Errors
/// A2 and A3 at the first line that has one, and A2 if a line is missing; `Memory` if memory runs out.
pub(crate) fn read_items(
    alloc: Global,
    header: &Header,
    rows: &[&[u8]],
) -> Result<Vec<Item>, AagErr>
    requires small { header.now.variables ≤ 2 ^ 30 }
    requires few { length rows.now + 3 < 2 ^ 32 }
    ensures count { IfOk result (λ items. length items.items ≡ item_count header.now) }
    ensures within { IfOk result (λ items. length items.items ≤ length rows.now) }
    ensures items { MatchResult result (λ items. items_from header.now [] (map (λ row. row.now) rows.now) ≡ Ok items.items) (OrMemory refusal_of (λ e. items_from header.now [] (map (λ row. row.now) rows.now) ≡ Err e)) }
{
    let count = count(header);
    let mut items = Vec::new(alloc);
    for row in rows {
        if count <= items.len() as u64 {
            return Ok(items);
        }
        let item = read_item(alloc, header, items.len() as u32, row)?;
        items.push(item)?;
    }
    if count <= items.len() as u64 {
        return Ok(items);
    }
    Err(AagErr::Malformed(items.len() as u32 + 2))
}
