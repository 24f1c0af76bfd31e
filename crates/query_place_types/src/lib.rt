// The type of a place as two numbers: a list's items', and that of an argument or input field of a table.
#![tactic(auto)]

ghost use Rattle.std.specs.Prelude.{◌≡◌, true, ◌≤◌, ◌<◌};
ghost use Rattle.paper_table.specs.Lists.{all_of, find};
ghost use Rattle.paper_table.specs.Types.{member_named};
ghost use Rattle.paper_query.specs.Constructs.{name_of};
ghost use Rattle.paper_query.specs.PlaceTypes.{nullable};
ghost use Rattle.table_book.specs.Book.{count_in};
ghost use Rattle.table_types.specs.Booked.{Booked, definition_on};
ghost use Rattle.table_types.specs.Sizes.{slim_member};
ghost use Rattle.table_entries.specs.Entries.{has_types, Entered, MemberStands};
ghost use Rattle.query_rows.specs.Rowed.{doc_of, Rowed};
ghost use Rattle.query_place_types.specs.Shapes.{place_unknown, SomeEntry, Keeps, Items, EntryPlace, ArgumentPlace, member_shape, input_tag};

use paper::{WRAP_LIST, WRAP_NON_NULL};
use query_rows::{name_of, size_of};
use table_entries::NO_ENTRY;

// A place's type: that of an entry, so much more, or 0 where it is not known, or 1 for Boolean; the wrappers that are left of it.
#[derive(Clone, Copy)]
pub struct Place {
    pub at: u16,
    pub wrappers: u16,
}

pub const PLACE_UNKNOWN: u16 = 0;

pub const PLACE_BOOLEAN: u16 = 1;

pub const PLACE_FIRST: u16 = 2;

const WRAPPERS: u32 = 4;

// the tag of what a name of no type means
const TAG_NOTHING: u32 = 0;

fn wide(x: u16) -> u32
    ensures { result ≡ x }
{
    x as u32
}

// A place whose type is not known.
pub fn unknown() -> Place
    ensures { result.at ≡ place_unknown }
{
    Place {
        at: PLACE_UNKNOWN,
        wrappers: 0,
    }
}

// Wrappers without the outermost Non-Null.
pub fn nullable_of(wrappers: u32) -> u32
    ensures { (result ≡ nullable wrappers) × (result ≤ wrappers) }
{
    if wrappers % WRAPPERS == WRAP_NON_NULL {
        return wrappers / WRAPPERS;
    }
    wrappers
}

// The same of a place's.
pub fn nullable_at(p: Place) -> u32
    ensures { (result ≡ nullable p.wrappers) × (result ≤ p.wrappers) }
{
    nullable_of(wide(p.wrappers))
}

// The type of a list's items.
pub fn item_of(p: Place) -> Place
    ensures { Items p result }
{
    let w = nullable_at(p);
    if w % WRAPPERS != WRAP_LIST {
        return unknown();
    }
    Place {
        at: p.at,
        wrappers: (w / WRAPPERS) as u16,
    }
}

// The type of entry e.
fn entry_place(es: &[u16], e: usize) -> Place
    requires { SomeEntry es.now e }
    ensures { EntryPlace es.now e result }
{
    let r = table_entries::type_of(es, e);
    Place {
        at: e as u16 + PLACE_FIRST,
        wrappers: r.wrappers as u16,
    }
}

// The type of the argument of row i's name, of the member with entry m.
pub fn argument_typed(
    t: &[u8],
    book: &[u32],
    es: &[u16],
    m: usize,
    s: &[u8],
    rows: &[u32],
    n: usize,
    i: usize,
) -> Place
    requires { MemberStands t.now book.now es.now m × Rowed s.now rows.now n }
    ensures { ArgumentPlace t.now book.now es.now m (name_of (doc_of s.now rows.now n) i) result }
{
    let at = name_of(rows, n, i) as usize;
    let size = size_of(rows, n, i) as usize;
    let e = table_entries::find_argument(t, book, es, m, s, at, size);
    if NO_ENTRY <= e {
        return unknown();
    }
    entry_place(es, e)
}

// The type of the input field of row i's name, of the input object that is definition k.
pub fn input_typed(
    t: &[u8],
    book: &[u32],
    es: &[u16],
    k: usize,
    s: &[u8],
    rows: &[u32],
    n: usize,
    i: usize,
) -> Place
    requires { Booked t.now book.now × Entered t.now book.now es.now × (k < count_in book.now) × (has_types (definition_on t.now k).tag ≡ true) × (all_of slim_member (definition_on t.now k).members ≡ true) × Rowed s.now rows.now n }
    ensures { Keeps t.now book.now es.now (member_shape (find (member_named (name_of (doc_of s.now rows.now n) i)) (definition_on t.now k).members)) result }
{
    let at = name_of(rows, n, i) as usize;
    let size = size_of(rows, n, i) as usize;
    let e = table_entries::find_member(t, book, es, k, s, at, size);
    if NO_ENTRY <= e {
        return unknown();
    }
    entry_place(es, e)
}

// Is it the tag of a scalar, an enum or an input object?
pub fn is_input(tag: u32) -> bool
    ensures { result ≡ input_tag tag }
{
    if tag == TAG_NOTHING {
        return false;
    }
    !table_types::is_composite(tag)
}
