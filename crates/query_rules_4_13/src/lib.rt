// The query rules 4 and 13: what a table says of type conditions and roots.
#![tactic(auto)]

ghost use Rattle.std.specs.Prelude.{◌≡◌, ◌||◌, eqb};
ghost use Rattle.paper.specs.Numbers.{kind_fragment, kind_inline};
ghost use Rattle.paper_table.specs.Types.{table_of};
ghost use Rattle.paper_query.specs.Rule4Condition.{condition_wrong};
ghost use Rattle.paper_query.specs.Rule13NoRoot.{no_root};
ghost use Rattle.table_types.specs.Booked.{Booked};
ghost use Rattle.query_rows.specs.Rowed.{doc_of, Rowed};

use paper::{KIND_FRAGMENT, KIND_INLINE, KIND_OPERATION, KIND_TYPE_REFERENCE};
use query_rows::{extra_of, kind_of, name_of, parent_of, size_of};

// Is it the kind of a fragment, whose type reference is a condition?
fn is_fragment(kind: u32) -> bool
    ensures { result ≡ eqb kind kind_fragment || eqb kind kind_inline }
{
    if kind == KIND_FRAGMENT {
        return true;
    }
    kind == KIND_INLINE
}

// 4: row i is a type condition, and not an object, interface or union.
pub fn condition_wrong(t: &[u8], book: &[u32], s: &[u8], rows: &[u32], n: usize, i: usize) -> bool
    requires { Booked t.now book.now × Rowed s.now rows.now n }
    ensures { result ≡ condition_wrong (table_of t.now) (doc_of s.now rows.now n) i }
{
    if kind_of(rows, n, i) != KIND_TYPE_REFERENCE {
        return false;
    }
    if !is_fragment(kind_of(rows, n, parent_of(rows, n, i) as usize)) {
        return false;
    }
    let tag = table_types::tag_meant(
        t,
        book,
        s,
        name_of(rows, n, i) as usize,
        size_of(rows, n, i) as usize,
    );
    !table_types::is_composite(tag)
}

// 13: row i is an operation of a kind without a root.
pub fn no_root(t: &[u8], book: &[u32], s: &[u8], rows: &[u32], n: usize, i: usize) -> bool
    requires { Booked t.now book.now × Rowed s.now rows.now n }
    ensures { result ≡ no_root (table_of t.now) (doc_of s.now rows.now n) i }
{
    if kind_of(rows, n, i) != KIND_OPERATION {
        return false;
    }
    !query_roots::has_root(t, book, extra_of(rows, n, i))
}
