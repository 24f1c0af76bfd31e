// The type that is due at one argument, object field or value of a document, given that due at its parent.
#![tactic(auto)]

ghost use Rattle.paper_table.specs.Types.{table_of};
ghost use Rattle.paper_query.specs.Constructs.{name_of};
ghost use Rattle.paper_query.specs.Enclosing.{then};
ghost use Rattle.paper_query.specs.PlaceTypes.{input_field_of, argument_place, place_from};
ghost use Rattle.table_types.specs.Booked.{Booked};
ghost use Rattle.table_entries.specs.Entries.{Entered};
ghost use Rattle.query_rows.specs.Rowed.{doc_of, Rowed};
ghost use Rattle.query_place_types.specs.Shapes.{coded, Within, Keeps};
ghost use Rattle.query_due_types.specs.Dues.{Fitted, FieldsKept};

use paper::{
    KIND_ARGUMENT, KIND_DIRECTIVE, KIND_FIELD, KIND_LIST, KIND_OBJECT, KIND_OBJECT_FIELD,
    KIND_VARIABLE,
};
use paper_table::TAG_INPUT_OBJECT;
use query_fields::{FIELD_FIRST, FIELD_TYPENAME};
use query_place_types::{PLACE_BOOLEAN, PLACE_FIRST, Place};
use query_rows::{kind_of, parent_of};

// The type due at the argument of row i: of a directive Boolean, of a field its definition's.
fn argument_place(
    t: &[u8],
    book: &[u32],
    es: &[u16],
    s: &[u8],
    rows: &[u32],
    n: usize,
    at: &[u16],
    i: usize,
) -> Place
    requires { Fitted t.now × Rowed s.now rows.now n × FieldsKept t.now book.now es.now s.now rows.now n at.now }
    ensures { Keeps t.now book.now es.now (argument_place (table_of t.now) (doc_of s.now rows.now n) i) result }
{
    let p = parent_of(rows, n, i) as usize;
    let kind = kind_of(rows, n, p);
    if kind == KIND_DIRECTIVE {
        return Place {
            at: PLACE_BOOLEAN,
            wrappers: 0,
        };
    }
    if kind != KIND_FIELD {
        return query_place_types::unknown();
    }
    let f = at[p];
    if f <= FIELD_TYPENAME {
        return query_place_types::unknown();
    }
    query_place_types::argument_typed(t, book, es, (f - FIELD_FIRST) as usize, s, rows, n, i)
}

// The type due at the object's field of row i, where p is due at the object.
fn input_place(
    t: &[u8],
    book: &[u32],
    es: &[u16],
    s: &[u8],
    rows: &[u32],
    n: usize,
    i: usize,
    p: Place,
) -> Place
    requires { Fitted t.now × Booked t.now book.now × Entered t.now book.now es.now × Rowed s.now rows.now n × Within t.now book.now es.now p }
    ensures { Keeps t.now book.now es.now (then (coded t.now es.now p) (input_field_of (table_of t.now) (name_of (doc_of s.now rows.now n) i))) result }
{
    if p.at < PLACE_FIRST {
        return query_place_types::unknown();
    }
    let k = table_entries::meant_by(es, (p.at - PLACE_FIRST) as usize);
    if table_types::kind_in(book, k) != TAG_INPUT_OBJECT as u32 {
        return query_place_types::unknown();
    }
    query_place_types::input_typed(t, book, es, k, s, rows, n, i)
}

// The type due at row i, where that due at its parent is p.
pub fn place_from(
    t: &[u8],
    book: &[u32],
    es: &[u16],
    s: &[u8],
    rows: &[u32],
    n: usize,
    at: &[u16],
    i: usize,
    p: Place,
) -> Place
    requires { Fitted t.now × Booked t.now book.now × Entered t.now book.now es.now × Rowed s.now rows.now n × FieldsKept t.now book.now es.now s.now rows.now n at.now × Within t.now book.now es.now p }
    ensures { Keeps t.now book.now es.now (place_from (table_of t.now) (doc_of s.now rows.now n) i (coded t.now es.now p)) result }
{
    let kind = kind_of(rows, n, i);
    if kind == KIND_ARGUMENT {
        return argument_place(t, book, es, s, rows, n, at, i);
    }
    if kind == KIND_OBJECT_FIELD {
        return input_place(t, book, es, s, rows, n, i, p);
    }
    if kind < KIND_VARIABLE {
        return query_place_types::unknown();
    }
    if KIND_OBJECT < kind {
        return query_place_types::unknown();
    }
    if kind_of(rows, n, parent_of(rows, n, i) as usize) == KIND_LIST {
        return query_place_types::item_of(p);
    }
    p
}
