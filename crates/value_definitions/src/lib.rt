// What a variable definition of a document says, found by its rows: the type that it declares, and the row of its default.
#![tactic(auto)]

ghost use Rattle.std.specs.Prelude.{◌≡◌, ◌<◌};
ghost use Rattle.paper.specs.Language.{Document};
ghost use Rattle.paper_table.specs.Lists.{first_at};
ghost use Rattle.table_types.specs.Booked.{Booked};
ghost use Rattle.query_rows.specs.Rowed.{row_in, rows_in, doc_of, Sized};
ghost use Rattle.query_rows.proofs.ReadRows.{Taken};
ghost use Rattle.query_subtrees.specs.Past.{Pasts};
ghost use Rattle.paper_values.specs.DocumentDues.{default_row, declared_ref};
ghost use Rattle.value_kinds.specs.Dues.{DueIs, Fits};
ghost use Rattle.value_entries.specs.Entered.{Treed};
ghost use Rattle.value_definitions.specs.Definitions.{is_declared, is_default, told};

use paper::{KIND_OBJECT, KIND_TYPE_REFERENCE, KIND_VARIABLE};
use query_rows::{extra_of, kind_of, name_of, parent_of, size_of};
use query_subtrees::past_of;
use value_kinds::{Due, due_of};

fn wide(x: u32) -> usize
    ensures { result ≡ x }
{
    x as usize
}

// Is row j a value right below row v?
fn is_default(rows: &[u32], n: usize, v: usize, j: usize) -> bool
    requires { Sized rows.now n }
    ensures { result ≡ is_default v (row_in rows.now n j) }
{
    let k = kind_of(rows, n, j);
    if k < KIND_VARIABLE {
        return false;
    }
    if KIND_OBJECT < k {
        return false;
    }
    wide(parent_of(rows, n, j)) == v
}

// The first value right below row v; n if there is none.
fn first_default(s: &[u8], rows: &[u32], n: usize, past: &[u32], v: usize) -> usize
    requires { Treed s.now rows.now n past.now × (v < n) }
    ensures { result ≡ first_at (is_default v) (rows_in rows.now n) }
{
    let e = past_of(rows, n, past, v);
    let mut j = v + 1;
    while j < e {
        if is_default(rows, n, v, j) {
            return j;
        }
        j = past_of(rows, n, past, j);
    }
    n
}

// The row of the default of the definition at row v; None if it has none.
pub fn default_of(s: &[u8], rows: &[u32], n: usize, past: &[u32], v: usize) -> Option<usize>
    requires { Treed s.now rows.now n past.now × (v < n) }
    ensures { result ≡ told (default_row (doc_of s.now rows.now n) v) }
{
    let i = first_default(s, rows, n, past, v);
    if i < n {
        return Some(i);
    }
    None
}

// Is row j a type reference right below row v?
fn is_declared(rows: &[u32], n: usize, v: usize, j: usize) -> bool
    requires { Sized rows.now n }
    ensures { result ≡ is_declared v (row_in rows.now n j) }
{
    if kind_of(rows, n, j) != KIND_TYPE_REFERENCE {
        return false;
    }
    wide(parent_of(rows, n, j)) == v
}

// The first type reference right below row v; n if there is none.
fn first_declared(s: &[u8], rows: &[u32], n: usize, past: &[u32], v: usize) -> usize
    requires { Treed s.now rows.now n past.now × (v < n) }
    ensures { result ≡ first_at (is_declared v) (rows_in rows.now n) }
{
    let e = past_of(rows, n, past, v);
    let mut j = v + 1;
    while j < e {
        if is_declared(rows, n, v, j) {
            return j;
        }
        j = past_of(rows, n, past, j);
    }
    n
}

// The type that the definition at row v declares; of no name where it has none, since a row that is not there has none.
pub fn declared_of(
    t: &[u8],
    book: &[u32],
    s: &[u8],
    rows: &[u32],
    n: usize,
    past: &[u32],
    v: usize,
) -> Due
    requires { Booked t.now book.now × Taken Document s.now rows.now n × Pasts (rows_in rows.now n) past.now × (v < n) }
    ensures { DueIs t.now book.now (declared_ref (doc_of s.now rows.now n) v) result.sort result.number result.wrappers × Fits book.now result.sort result.number result.wrappers }
{
    let i = first_declared(s, rows, n, past, v);
    let at = wide(name_of(rows, n, i));
    let size = wide(size_of(rows, n, i));
    due_of(t, book, s, at, size, extra_of(rows, n, i))
}
