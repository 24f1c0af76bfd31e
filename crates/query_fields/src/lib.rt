// What a field of a name is in a type with selections, and the type that its own selections are of.
// A field is coded as one number, so that it can be kept for a document's rows. Of the table nothing is asked but its sizes.
#![tactic(auto)]

ghost use Rattle.std.specs.Prelude.{◌+◌, ◌≤◌, length, ◌≡◌};
ghost use Rattle.paper_table.specs.Types.{table_of};
ghost use Rattle.paper_query.specs.Enclosing.{field_of, is_typename, or_missing, field_named};
ghost use Rattle.paper_query.proofs.EnclosingLaws.{Composite};
ghost use Rattle.table_book.specs.Book.{part};
ghost use Rattle.table_types.specs.Booked.{Booked};
ghost use Rattle.table_entries.specs.Entries.{Entered};
ghost use Rattle.query_types.specs.Coded.{type_coded, TypeKnown};
ghost use Rattle.query_fields.specs.Kept.{FieldKept, FieldStands, FieldTyped};

use paper_table::TAG_UNION;
use query_types::NO_TYPE;
use table_entries::NO_ENTRY;

// a field in no known type; not of its type; `__typename`. Any other is a member, kept as its entry, so much more
pub const FIELD_UNKNOWN: u16 = 0;

pub const FIELD_MISSING: u16 = 1;

pub const FIELD_TYPENAME: u16 = 2;

pub const FIELD_FIRST: u16 = 3;

// Is it the name `__typename`?
pub fn is_typename(s: &[u8], at: usize, n: usize) -> bool
    requires { at + n ≤ length s.now }
    ensures { result ≡ is_typename (part s.now at n) }
{
    table_book::is_text(s, at, n, b"__typename", 0, 10)
}

// The field of a name, of the object or interface that is definition k; a union has none.
fn find_field(t: &[u8], book: &[u32], es: &[u16], k: usize, s: &[u8], at: usize, n: usize) -> u16
    requires { Booked t.now book.now × Entered t.now book.now es.now × Composite (table_of t.now) k × (at + n ≤ length s.now) }
    ensures { FieldKept t.now book.now es.now (or_missing (field_of (table_of t.now) k (part s.now at n))) result }
{
    if table_book::kind_of(book, k) == TAG_UNION as u32 {
        return FIELD_MISSING;
    }
    let e = table_entries::find_member(t, book, es, k, s, at, n);
    if NO_ENTRY <= e {
        return FIELD_MISSING;
    }
    e as u16 + FIELD_FIRST
}

// What the field of a name is in the type `above`.
pub fn field_in(
    t: &[u8],
    book: &[u32],
    es: &[u16],
    above: u16,
    s: &[u8],
    at: usize,
    n: usize,
) -> u16
    requires { Booked t.now book.now × Entered t.now book.now es.now × TypeKnown (table_of t.now) above × (at + n ≤ length s.now) }
    ensures { FieldKept t.now book.now es.now (field_named (table_of t.now) (type_coded above) (part s.now at n)) result }
{
    if above == NO_TYPE {
        return FIELD_UNKNOWN;
    }
    if is_typename(s, at, n) {
        return FIELD_TYPENAME;
    }
    find_field(t, book, es, above as usize - 1, s, at, n)
}

// The type that the selections of a field are of.
pub fn field_type(t: &[u8], book: &[u32], es: &[u16], at: u16) -> u16
    requires { Booked t.now book.now × FieldStands t.now book.now es.now at }
    ensures { FieldTyped t.now book.now es.now at result }
{
    if at <= FIELD_TYPENAME {
        return NO_TYPE;
    }
    let k = table_entries::meant_by(es, (at - FIELD_FIRST) as usize);
    query_types::if_composite(t, book, k)
}
