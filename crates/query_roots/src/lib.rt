// The roots of a table, and their types with selections. Of the table nothing is asked but its sizes.
#![tactic(auto)]

ghost use Rattle.std.specs.Prelude.{◌≡◌};
ghost use Rattle.paper_table.specs.References.{found};
ghost use Rattle.paper_table.specs.Types.{table_of};
ghost use Rattle.paper_query.specs.Enclosing.{then, composite_of, root_of};
ghost use Rattle.table_fields.specs.Fields.{Bounds};
ghost use Rattle.table_types.specs.Booked.{Booked};
ghost use Rattle.query_types.specs.Coded.{type_coded};
ghost use Rattle.query_roots.specs.Rooted.{FindTagged, RootFinds};

use paper_table::TAG_QUERY_ROOT;
use query_types::{NO_TYPE, composite, if_composite};
use table_fields::Field;

// A root: a member of record 8; or `Query`, where there is no record 8.
#[derive(Clone, Copy)]
pub enum Root {
    Written { tag: u8, start: usize, end: usize },
    Query,
}

// A record's first member of this tag, from `from` on; none if there is none.
fn find_tagged(t: &[u8], from: usize, end: usize, tag: usize) -> Option<Field>
    requires { Bounds t.now from end }
    ensures { FindTagged t.now from end tag result }
{
    let mut i = from;
    loop {
        let f = table_members::next_member(t, i, end)?;
        if f.tag as usize == tag {
            return Some(f);
        }
        i = f.end;
    }
}

// The root of an operation's kind x: 0 query, 1 mutation, 2 subscription. None: the table has no such root.
fn find_root(t: &[u8], book: &[u32], x: u32) -> Option<Root>
    requires { Booked t.now book.now }
    ensures { RootFinds t.now x result }
{
    let k = table_types::first_roots(t, book);
    if table_book::count_of(book) <= k {
        if x == 0 {
            return Some(Root::Query);
        }
        return None;
    }
    let Some(f) = find_tagged(
        t,
        table_book::start_of(book, k),
        table_book::end_of(book, k),
        TAG_QUERY_ROOT as usize + x as usize,
    ) else {
        return None;
    };
    Some(Root::Written {
        tag: f.tag,
        start: f.start,
        end: f.end,
    })
}

// Has the table a root of an operation's kind?
pub fn has_root(t: &[u8], book: &[u32], x: u32) -> bool
    requires { Booked t.now book.now }
    ensures { result ≡ found (root_of (table_of t.now) x) }
{
    find_root(t, book, x).is_some()
}

// The type of the root of an operation's kind.
pub fn root_type(t: &[u8], book: &[u32], x: u32) -> u16
    requires { Booked t.now book.now }
    ensures { type_coded result ≡ then (root_of (table_of t.now) x) (λ m. composite_of (table_of t.now) m.name) }
{
    let Some(root) = find_root(t, book, x) else {
        return NO_TYPE;
    };
    match root {
        Root::Written { tag, start, end } => {
            let m = table_members::member_name(t, tag, start, end);
            composite(t, book, t, m.at, m.size)
        }
        Root::Query => if_composite(t, book, table_types::first_query(t, book)),
    }
}
