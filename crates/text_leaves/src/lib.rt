// Writes the row of one token, begins the row of an opening mark and ends it with the closing one.
// Each answers Ok with the cursor past what it read, or Err with the refusal.
#![tactic(auto)]

ghost use Rattle.std.specs.Prelude.{◌<◌};
ghost use Rattle.paper.specs.Numbers.{most_rows};
ghost use Rattle.text_cursor.specs.Reader.{Ready};
ghost use Rattle.text_leaves.specs.Marks.{Leaf, Open, Close};

use paper::{MOST_ROWS, Refusal};
use text_cursor::{Cursor, put_end, put_row};

// A value that is one token: its row.
pub fn leaf(
    s: &[u8],
    rows: &mut [u32],
    c: Cursor,
    parent: u32,
    kind: u32,
    name: u32,
    size: u32,
    extra: u32,
) -> Result<Cursor, Refusal>
    requires { Ready s.now rows.old c parent }
    ensures { Leaf s.now rows.old rows.new c parent kind name size extra result }
{
    if c.rows == MOST_ROWS {
        return Err(Refusal::TooManyRows(c.start));
    }
    let n = c.rows;
    put_row(rows, n, kind, c.start, c.end, parent, name, size, extra);
    c.past(s, n + 1)
}

// The opening mark of a list or an object: its row, and its level.
pub fn enter(
    s: &[u8],
    rows: &mut [u32],
    c: Cursor,
    parent: u32,
    left: u32,
    kind: u32,
) -> Result<Cursor, Refusal>
    requires { Ready s.now rows.old c parent }
    ensures { Open s.now rows.old rows.new c parent left kind result }
{
    if left == 0 {
        return Err(Refusal::TooDeep(c.start));
    }
    let n = c.rows;
    if n == MOST_ROWS {
        return Err(Refusal::TooManyRows(c.start));
    }
    put_row(rows, n, kind, c.start, 0, parent, 0, 0, 0);
    c.past(s, n + 1)
}

// The closing mark of row n, at which the cursor stands.
pub fn close(s: &[u8], rows: &mut [u32], c: Cursor, n: u32) -> Result<Cursor, Refusal>
    requires { Ready s.now rows.old c n × (n < most_rows) }
    ensures { Close s.now rows.old rows.new c n result }
{
    put_end(rows, n, c.end);
    let m = c.rows;
    c.past(s, m)
}
