// The type inside each row of a document, and what each field is in the type that encloses it; kept for the rules that need a type.
// Operations, fragments, fields and inline fragments have them; what is kept of other rows is left alone.
#![tactic(auto)]

ghost use Rattle.std.specs.Prelude.{◌≡◌, true, suc, ◌<◌, length};
ghost use Rattle.paper.specs.Numbers.{kind_field};
ghost use Rattle.paper_table.specs.Types.{table_of};
ghost use Rattle.paper_query.specs.Enclosing.{condition_of, conditioned, type_inside_from, enclosing};
ghost use Rattle.table_types.specs.Booked.{Booked};
ghost use Rattle.table_entries.specs.Entries.{Entered};
ghost use Rattle.query_rows.specs.Rowed.{row_in, doc_of, Rowed, Sized, room_of};
ghost use Rattle.query_types.specs.Coded.{type_coded};
ghost use Rattle.query_inside.specs.Enclosed.{encloses, type_kept, Asked, EnclosedTo};

use paper::{KIND_FIELD, KIND_FRAGMENT, KIND_INLINE, KIND_OPERATION, KIND_TYPE_REFERENCE};
use query_rows::{extra_of, kind_of, name_of, parent_of, size_of};
use query_types::NO_TYPE;

// Has a row of this kind a type inside?
pub fn encloses(kind: u32) -> bool
    ensures { result ≡ encloses kind }
{
    if kind == KIND_OPERATION {
        return true;
    }
    if kind == KIND_FRAGMENT {
        return true;
    }
    if kind == KIND_FIELD {
        return true;
    }
    kind == KIND_INLINE
}

// The type kept for row i; none for a row without a type inside, or one that is not there.
pub fn type_inside(rows: &[u32], n: usize, inside: &[u16], i: usize) -> u16
    requires { Sized rows.now n × (length inside.now ≡ room_of n) }
    ensures { result ≡ type_kept rows.now n inside.now i }
{
    if encloses(kind_of(rows, n, i)) {
        return inside[i];
    }
    NO_TYPE
}

// The type of a fragment's condition; `above` if it has none.
fn condition_type(
    t: &[u8],
    book: &[u32],
    s: &[u8],
    rows: &[u32],
    n: usize,
    first: &[u16],
    next: &[u16],
    i: usize,
    above: u16,
) -> u16
    requires { Asked t.now book.now s.now rows.now n first.now next.now × (i < n) }
    ensures { type_coded result ≡ conditioned (table_of t.now) (doc_of s.now rows.now n) (type_coded above) (condition_of (doc_of s.now rows.now n) i) }
{
    let j = query_siblings::first_below(rows, n, first, next, KIND_TYPE_REFERENCE, i);
    if n <= j {
        return above;
    }
    query_types::composite(
        t,
        book,
        s,
        name_of(rows, n, j) as usize,
        size_of(rows, n, j) as usize,
    )
}

// The type inside an operation or a fragment, where that inside its parent is `above`.
pub fn other_type(
    t: &[u8],
    book: &[u32],
    s: &[u8],
    rows: &[u32],
    n: usize,
    first: &[u16],
    next: &[u16],
    i: usize,
    above: u16,
) -> u16
    requires { Asked t.now book.now s.now rows.now n first.now next.now × (i < n) × (encloses (row_in rows.now n i).kind ≡ true) × ((row_in rows.now n i).kind ≡ kind_field → ⊥) }
    ensures { type_coded result ≡ type_inside_from (table_of t.now) (doc_of s.now rows.now n) i (type_coded above) }
{
    let kind = kind_of(rows, n, i);
    if kind == KIND_OPERATION {
        return query_roots::root_type(t, book, extra_of(rows, n, i));
    }
    if kind == KIND_FRAGMENT {
        return condition_type(t, book, s, rows, n, first, next, i, NO_TYPE);
    }
    condition_type(t, book, s, rows, n, first, next, i, above)
}

// Keeps what the field of row i is, and the type inside it.
fn enclose_field(
    t: &[u8],
    book: &[u32],
    es: &[u16],
    s: &[u8],
    rows: &[u32],
    n: usize,
    inside: &mut [u16],
    at: &mut [u16],
    i: usize,
    above: u16,
)
    requires { Booked t.now book.now × Entered t.now book.now es.now × Rowed s.now rows.now n × EnclosedTo t.now book.now es.now s.now rows.now n i inside.old at.old × (i < n) × ((row_in rows.now n i).kind ≡ kind_field) × (enclosing (table_of t.now) (doc_of s.now rows.now n) i ≡ type_coded above) }
    ensures { EnclosedTo t.now book.now es.now s.now rows.now n (suc i) inside.new at.new }
{
    let f = query_fields::field_in(
        t,
        book,
        es,
        above,
        s,
        name_of(rows, n, i) as usize,
        size_of(rows, n, i) as usize,
    );
    inside[i] = query_fields::field_type(t, book, es, f);
    at[i] = f;
}

// Keeps what there is of row i.
fn enclose_row(
    t: &[u8],
    book: &[u32],
    es: &[u16],
    s: &[u8],
    rows: &[u32],
    n: usize,
    first: &[u16],
    next: &[u16],
    inside: &mut [u16],
    at: &mut [u16],
    i: usize,
)
    requires { Asked t.now book.now s.now rows.now n first.now next.now × Entered t.now book.now es.now × EnclosedTo t.now book.now es.now s.now rows.now n i inside.old at.old × (i < n) }
    ensures { EnclosedTo t.now book.now es.now s.now rows.now n (suc i) inside.new at.new }
{
    let kind = kind_of(rows, n, i);
    if !encloses(kind) {
        return;
    }
    let above = type_inside(rows, n, inside, parent_of(rows, n, i) as usize);
    if kind == KIND_FIELD {
        enclose_field(t, book, es, s, rows, n, inside, at, i, above);
        return;
    }
    inside[i] = other_type(t, book, s, rows, n, first, next, i, above);
}

// Keeps what there is of each row, parents first.
pub fn enclose(
    t: &[u8],
    book: &[u32],
    es: &[u16],
    s: &[u8],
    rows: &[u32],
    n: usize,
    first: &[u16],
    next: &[u16],
    inside: &mut [u16],
    at: &mut [u16],
)
    requires { Asked t.now book.now s.now rows.now n first.now next.now × Entered t.now book.now es.now × (length inside.old ≡ room_of n) × (length at.old ≡ room_of n) }
    ensures { EnclosedTo t.now book.now es.now s.now rows.now n n inside.new at.new }
{
    for i in 0..n {
        enclose_row(t, book, es, s, rows, n, first, next, inside, at, i);
    }
}
