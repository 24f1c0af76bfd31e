// Lent buffers: whether rows and inputs keep to their sizes, before anything is read; and clearing.
#![tactic(auto)]

ghost use Rattle.std.specs.Prelude.{◌≡◌, ◌≤◌, length};
ghost use Rattle.call_buffers.specs.Buffers.{cleared, Sized};

use paper::{INPUT_DOCUMENT, MOST_TEXT, ROWS_SIZE, Refusal};
use paper_table::{INPUT_TABLE, MOST_TABLE};

// Ok where rows, a document and a table of these lengths keep to their sizes, or Err with the first refusal that they ask for; a call without a
// table has one of no bytes.
#[tactic(auto, using(crate::specs::Buffers::short_rows, crate::specs::Buffers::long_document, crate::specs::Buffers::long_table))]
pub fn sizes_met(rows: usize, document: usize, table: usize) -> Result<(), Refusal>
    ensures { Sized rows document table result }
{
    if rows < ROWS_SIZE {
        return Err(Refusal::Buffer);
    }
    if MOST_TEXT < document {
        return Err(Refusal::OverLength(INPUT_DOCUMENT));
    }
    if MOST_TABLE < table {
        return Err(Refusal::OverLength(INPUT_TABLE));
    }
    Ok(())
}

// Sets the rows from place `from` on to 0.
pub fn clear(rows: &mut [u32], from: usize)
    requires { from ≤ length rows.old }
    ensures { rows.new ≡ cleared from rows.old }
{
    rows[from..].fill(0);
}
