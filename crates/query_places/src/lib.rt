// The type that is due at each argument, object field and value of a document, by a table, kept for each row; whether a variable definition's is no input type.
#![tactic(auto)]

ghost use Rattle.std.specs.Prelude.{◌≡◌, ◌+◌, ◌<◌, length};
ghost use Rattle.paper_table.specs.Types.{table_of};
ghost use Rattle.paper_query.specs.Rule11VariableType.{no_input_type};
ghost use Rattle.table_types.specs.Booked.{Booked};
ghost use Rattle.table_entries.specs.Entries.{Entered};
ghost use Rattle.query_rows.specs.Rowed.{doc_of, rows_in, Rowed, Sized, room_of};
ghost use Rattle.query_links.specs.Links.{Family};
ghost use Rattle.query_inside.specs.Enclosed.{EnclosedTo};
ghost use Rattle.query_due_types.specs.Dues.{Fitted};
ghost use Rattle.query_places.specs.Placed.{place_in, PlacedTo, Placed};

use paper::{KIND_TYPE_REFERENCE, KIND_VARIABLE_DEFINITION};
use query_place_types::{PLACE_UNKNOWN, Place};
use query_rows::{kind_of, name_of, parent_of, size_of};
use query_siblings::first_below;

// The type due at row i, as it is kept.
pub fn place_of(rows: &[u32], n: usize, at: &[u16], wrappers: &[u16], i: usize) -> Place
    requires { Sized rows.now n × (length at.now ≡ room_of n) × (length wrappers.now ≡ room_of n) }
    ensures { result ≡ place_in rows.now n at.now wrappers.now i }
{
    if n <= i {
        return Place {
            at: PLACE_UNKNOWN,
            wrappers: 0,
        };
    }
    if query_inside::encloses(kind_of(rows, n, i)) {
        return Place {
            at: PLACE_UNKNOWN,
            wrappers: 0,
        };
    }
    Place {
        at: at[i],
        wrappers: wrappers[i],
    }
}

// Keeps the type due at row i, unless the row has a type inside.
fn keep_place(
    t: &[u8],
    book: &[u32],
    es: &[u16],
    s: &[u8],
    rows: &[u32],
    n: usize,
    at: &mut [u16],
    wrappers: &mut [u16],
    i: usize,
)
    requires { Fitted t.now × Booked t.now book.now × Entered t.now book.now es.now × Rowed s.now rows.now n × PlacedTo t.now book.now es.now s.now rows.now n at.old wrappers.old i × (i < n) }
    ensures { PlacedTo t.now book.now es.now s.now rows.now n at.new wrappers.new (i + 1) }
{
    if query_inside::encloses(kind_of(rows, n, i)) {
        return;
    }
    let above = place_of(rows, n, at, wrappers, parent_of(rows, n, i) as usize);
    let p = query_due_types::place_from(t, book, es, s, rows, n, at, i, above);
    at[i] = p.at;
    wrappers[i] = p.wrappers;
}

// Keeps the type due at each row without a type inside, in the lists where `enclose` keeps what is known of the others.
pub fn places(
    t: &[u8],
    book: &[u32],
    es: &[u16],
    s: &[u8],
    rows: &[u32],
    n: usize,
    at: &mut [u16],
    wrappers: &mut [u16],
)
    requires { Fitted t.now × Booked t.now book.now × Entered t.now book.now es.now × Rowed s.now rows.now n × EnclosedTo t.now book.now es.now s.now rows.now n n wrappers.old at.old }
    ensures { Placed t.now s.now rows.now n at.new es.now wrappers.new }
{
    for i in 0..n {
        keep_place(t, book, es, s, rows, n, at, wrappers, i);
    }
}

// Is row i a variable definition whose type is no input type?
pub fn no_input_type(
    t: &[u8],
    book: &[u32],
    s: &[u8],
    rows: &[u32],
    n: usize,
    first: &[u16],
    next: &[u16],
    i: usize,
) -> bool
    requires { Booked t.now book.now × Rowed s.now rows.now n × Family (rows_in rows.now n) first.now next.now × (i < n) }
    ensures { result ≡ no_input_type (table_of t.now) (doc_of s.now rows.now n) i }
{
    if kind_of(rows, n, i) != KIND_VARIABLE_DEFINITION {
        return false;
    }
    let r = first_below(rows, n, first, next, KIND_TYPE_REFERENCE, i);
    if n <= r {
        return true;
    }
    !query_place_types::is_input(table_types::tag_meant(
        t,
        book,
        s,
        name_of(rows, n, r) as usize,
        size_of(rows, n, r) as usize,
    ))
}
