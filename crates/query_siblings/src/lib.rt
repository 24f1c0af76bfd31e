// Rows beside each other and right below a row; the query rule on them: 12.
#![tactic(auto)]

ghost use Rattle.std.specs.Prelude.{◌≡◌, ◌+◌, ◌≤◌, ◌<◌, length};
ghost use Rattle.paper_table.specs.Lists.{earlier};
ghost use Rattle.table_book.specs.Book.{part};
ghost use Rattle.paper_query.specs.Rule12NameTwice.{name_twice};
ghost use Rattle.query_rows.specs.Rowed.{row_in, rows_in, doc_of, Rowed, Sized};
ghost use Rattle.query_links.specs.Links.{Family};
ghost use Rattle.query_siblings.specs.Alike.{kind_called, first_like, is_like, first_below, Beside, next_beside};

use paper::{KIND_ARGUMENT, KIND_VARIABLE_DEFINITION};
use query_links::link_of;
use query_rows::{is_called, kind_of, name_of, parent_of, size_of};

// Is row j of kind k, and its name the text of l bytes from `at` on in t?
fn is_kind_called(
    s: &[u8],
    rows: &[u32],
    n: usize,
    j: usize,
    k: u32,
    t: &[u8],
    at: usize,
    l: usize,
) -> bool
    requires { Rowed s.now rows.now n × (at + l ≤ length t.now) }
    ensures { result ≡ kind_called (doc_of s.now rows.now n) k (part t.now at l) (row_in rows.now n j) }
{
    if kind_of(rows, n, j) != k {
        return false;
    }
    is_called(s, rows, n, j, t, at, l)
}

// The first of row i and those beside it that has row i's kind and name.
fn first_like(s: &[u8], rows: &[u32], n: usize, first: &[u16], next: &[u16], i: usize) -> usize
    requires { Rowed s.now rows.now n × Family (rows_in rows.now n) first.now next.now × (i < n) }
    ensures { result ≡ first_like (doc_of s.now rows.now n) i }
{
    let k = kind_of(rows, n, i);
    let at = name_of(rows, n, i) as usize;
    let l = size_of(rows, n, i) as usize;
    let p = parent_of(rows, n, i) as usize;
    let mut j = link_of(first, p);
    while j < n {
        if is_kind_called(s, rows, n, j, k, s, at, l) {
            return j;
        }
        j = link_of(next, j);
    }
    j
}

// Has an earlier row of its kind beside it the name of row i?
pub fn is_repeated(s: &[u8], rows: &[u32], n: usize, first: &[u16], next: &[u16], i: usize) -> bool
    requires { Rowed s.now rows.now n × Family (rows_in rows.now n) first.now next.now × (i < n) }
    ensures { result ≡ earlier (is_like (doc_of s.now rows.now n) i) i (rows_in rows.now n) }
{
    first_like(s, rows, n, first, next, i) < i
}

// Rule 12: has an earlier argument or variable definition beside it the name of this one?
pub fn name_twice(s: &[u8], rows: &[u32], n: usize, first: &[u16], next: &[u16], i: usize) -> bool
    requires { Rowed s.now rows.now n × Family (rows_in rows.now n) first.now next.now × (i < n) }
    ensures { result ≡ name_twice (doc_of s.now rows.now n) i }
{
    let k = kind_of(rows, n, i);
    if k == KIND_ARGUMENT {
        return is_repeated(s, rows, n, first, next, i);
    }
    if k == KIND_VARIABLE_DEFINITION {
        return is_repeated(s, rows, n, first, next, i);
    }
    false
}

// The first of kind k from row j on, that row and those beside it; n if there is none.
pub fn next_beside(rows: &[u32], n: usize, next: &[u16], k: u32, j: usize) -> usize
    requires { Sized rows.now n × Beside (rows_in rows.now n) next.now × (j ≤ n) }
    ensures { result ≡ next_beside (rows_in rows.now n) k j }
{
    let mut m = j;
    while m < n {
        if kind_of(rows, n, m) == k {
            return m;
        }
        m = link_of(next, m);
    }
    m
}

// The first of kind k right below row p; n if there is none.
pub fn first_below(rows: &[u32], n: usize, first: &[u16], next: &[u16], k: u32, p: usize) -> usize
    requires { Sized rows.now n × Family (rows_in rows.now n) first.now next.now × (p < n) }
    ensures { result ≡ first_below (rows_in rows.now n) k p }
{
    next_beside(rows, n, next, k, link_of(first, p))
}
