// A document's rows, read from the lent numbers. A row that is not there has no kind and no parent.
#![tactic(auto)]

ghost use Rattle.std.specs.Prelude.{◌≡◌, ◌&&◌, ◌+◌, ◌≤◌, ◌<◌, length, leb};
ghost use Rattle.paper.specs.Numbers.{kind_field, kind_inline};
ghost use Rattle.paper.specs.Tokens.{same};
ghost use Rattle.table_book.specs.Book.{part};
ghost use Rattle.paper_query.specs.Constructs.{name_of};
ghost use Rattle.query_rows.specs.Rowed.{row_in, doc_of, Rowed, Sized};

use paper::{KIND_FIELD, KIND_INLINE, NO_PARENT, ROW_SIZE};

// where a row's numbers stand, behind its kind: its start and end, its parent, its name's start and length, its extra
const CELL_START: usize = 1;

const CELL_END: usize = 2;

const CELL_PARENT: usize = 3;

const CELL_NAME: usize = 4;

const CELL_LENGTH: usize = 5;

const CELL_EXTRA: usize = 6;

// Row i's kind; 0 if there is no such row.
pub fn kind_of(rows: &[u32], n: usize, i: usize) -> u32
    requires { Sized rows.now n }
    ensures { result ≡ (row_in rows.now n i).kind }
{
    if i < n {
        return rows[ROW_SIZE * i];
    }
    0
}

// Where row i starts; 0 if there is no such row.
pub fn start_of(rows: &[u32], n: usize, i: usize) -> u32
    requires { Sized rows.now n }
    ensures { result ≡ (row_in rows.now n i).start }
{
    if i < n {
        return rows[ROW_SIZE * i + CELL_START];
    }
    0
}

// Where row i ends; 0 if there is no such row.
pub fn end_of(rows: &[u32], n: usize, i: usize) -> u32
    requires { Sized rows.now n }
    ensures { result ≡ (row_in rows.now n i).end }
{
    if i < n {
        return rows[ROW_SIZE * i + CELL_END];
    }
    0
}

// Row i's parent; 2,048 if there is no such row.
pub fn parent_of(rows: &[u32], n: usize, i: usize) -> u32
    requires { Sized rows.now n }
    ensures { result ≡ (row_in rows.now n i).parent }
{
    if i < n {
        return rows[ROW_SIZE * i + CELL_PARENT];
    }
    NO_PARENT
}

// Where row i's name begins; 0 if there is no such row.
pub fn name_of(rows: &[u32], n: usize, i: usize) -> u32
    requires { Sized rows.now n }
    ensures { result ≡ (row_in rows.now n i).name_start }
{
    if i < n {
        return rows[ROW_SIZE * i + CELL_NAME];
    }
    0
}

// How long row i's name is; 0 if there is no such row.
pub fn size_of(rows: &[u32], n: usize, i: usize) -> u32
    requires { Sized rows.now n }
    ensures { result ≡ (row_in rows.now n i).name_length }
{
    if i < n {
        return rows[ROW_SIZE * i + CELL_LENGTH];
    }
    0
}

// Row i's extra; 0 if there is no such row.
pub fn extra_of(rows: &[u32], n: usize, i: usize) -> u32
    requires { Sized rows.now n }
    ensures { result ≡ (row_in rows.now n i).extra }
{
    if i < n {
        return rows[ROW_SIZE * i + CELL_EXTRA];
    }
    0
}

// Is row i's name the text of l bytes from `at` on in t?
pub fn is_called(s: &[u8], rows: &[u32], n: usize, i: usize, t: &[u8], at: usize, l: usize) -> bool
    requires { Rowed s.now rows.now n × (at + l ≤ length t.now) }
    ensures { result ≡ same (name_of (doc_of s.now rows.now n) i) (part t.now at l) }
{
    table_book::is_text(
        s,
        name_of(rows, n, i) as usize,
        size_of(rows, n, i) as usize,
        t,
        at,
        l,
    )
}

// Have rows i and j the same name?
pub fn same_names(s: &[u8], rows: &[u32], n: usize, i: usize, j: usize) -> bool
    requires { Rowed s.now rows.now n }
    ensures { result ≡ same (name_of (doc_of s.now rows.now n) i) (name_of (doc_of s.now rows.now n) j) }
{
    is_called(
        s,
        rows,
        n,
        i,
        s,
        name_of(rows, n, j) as usize,
        size_of(rows, n, j) as usize,
    )
}

// Is it the kind of a selection?
pub fn is_selection(kind: u32) -> bool
    ensures { result ≡ leb kind_field kind && leb kind kind_inline }
{
    if kind < KIND_FIELD {
        return false;
    }
    kind <= KIND_INLINE
}
