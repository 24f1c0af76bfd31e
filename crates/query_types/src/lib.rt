// Types with selections, by a table: whether a definition is one, and the one that a name means.
// A type is coded as one number, so that it can be kept for a document's rows. Of the table nothing is asked but its sizes.
#![tactic(auto)]

ghost use Rattle.std.specs.Prelude.{◌≡◌, ◌+◌, ◌≤◌, length};
ghost use Rattle.paper_table.specs.Types.{definition, table_of};
ghost use Rattle.paper_query.specs.Enclosing.{if_composite, composite_of};
ghost use Rattle.table_book.specs.Book.{part};
ghost use Rattle.table_types.specs.Booked.{Booked};
ghost use Rattle.query_types.specs.Coded.{type_coded};

use table_types::Meant;

// the code of no type
pub const NO_TYPE: u16 = 0;

// The type that is definition k, if it is an object, interface or union.
pub fn if_composite(t: &[u8], book: &[u32], k: usize) -> u16
    requires { Booked t.now book.now }
    ensures { type_coded result ≡ if_composite (table_of t.now) (definition k) }
{
    if table_types::is_composite(table_types::kind_in(book, k)) {
        return k as u16 + 1;
    }
    NO_TYPE
}

// The object, interface or union that a name means.
pub fn composite(t: &[u8], book: &[u32], s: &[u8], at: usize, n: usize) -> u16
    requires { Booked t.now book.now × (at + n ≤ length s.now) }
    ensures { type_coded result ≡ composite_of (table_of t.now) (part s.now at n) }
{
    let m = table_types::meaning_of(t, book, s, at, n);
    match m {
        Meant::Definition(k) => if_composite(t, book, k),
        Meant::BuiltIn => NO_TYPE,
        Meant::Nothing => NO_TYPE,
    }
}
