// The query rule 9: a directive, the row that it stands on, those beside it and its arguments.
#![tactic(auto)]

ghost use Rattle.std.specs.Prelude.{◌≡◌, ◌<◌};
ghost use Rattle.paper.specs.Numbers.{kind_argument, kind_directive};
ghost use Rattle.paper_query.specs.Constructs.{is_selection};
ghost use Rattle.paper_query.specs.Rule9Directive.{rows_below, is_if, only_ifs, directive_right, directive_wrong};
ghost use Rattle.query_rows.specs.Rowed.{row_in, rows_in, doc_of, Rowed, Sized};
ghost use Rattle.query_links.specs.Links.{Family};

use paper::{KIND_ARGUMENT, KIND_BOOLEAN, KIND_DIRECTIVE, KIND_FIELD, KIND_INLINE, KIND_VARIABLE};
use query_links::link_of;
use query_rows::{is_called, kind_of, name_of, parent_of, size_of};
use query_siblings::{first_below, is_repeated, next_beside};

// Is row i a selection: a field, a spread or an inline fragment?
fn is_selection(rows: &[u32], n: usize, i: usize) -> bool
    requires { Sized rows.now n }
    ensures { result ≡ is_selection (row_in rows.now n i) }
{
    let k = kind_of(rows, n, i);
    if k < KIND_FIELD {
        return false;
    }
    k <= KIND_INLINE
}

// Is the argument of row a an `if`, a boolean or a variable?
fn is_if(s: &[u8], rows: &[u32], n: usize, first: &[u16], next: &[u16], a: usize) -> bool
    requires { Rowed s.now rows.now n × Family (rows_in rows.now n) first.now next.now × (a < n) }
    ensures { result ≡ is_if (doc_of s.now rows.now n) a }
{
    if !is_called(s, rows, n, a, b"if", 0, 2) {
        return false;
    }
    if first_below(rows, n, first, next, KIND_BOOLEAN, a) < n {
        return true;
    }
    first_below(rows, n, first, next, KIND_VARIABLE, a) < n
}

// Has row i one argument only, and such?
fn is_only_if(s: &[u8], rows: &[u32], n: usize, first: &[u16], next: &[u16], i: usize) -> bool
    requires { Rowed s.now rows.now n × Family (rows_in rows.now n) first.now next.now × (i < n) }
    ensures { result ≡ only_ifs (doc_of s.now rows.now n) (rows_below (doc_of s.now rows.now n) kind_argument i) }
{
    let a = first_below(rows, n, first, next, KIND_ARGUMENT, i);
    if n <= a {
        return false;
    }
    if next_beside(rows, n, next, KIND_ARGUMENT, link_of(next, a)) < n {
        return false;
    }
    is_if(s, rows, n, first, next, a)
}

// Is nothing wrong with the directive of row i?
fn is_right(s: &[u8], rows: &[u32], n: usize, first: &[u16], next: &[u16], i: usize) -> bool
    requires { Rowed s.now rows.now n × Family (rows_in rows.now n) first.now next.now × (i < n) × ((row_in rows.now n i).kind ≡ kind_directive) }
    ensures { result ≡ directive_right (doc_of s.now rows.now n) i }
{
    let at = name_of(rows, n, i) as usize;
    let l = size_of(rows, n, i) as usize;
    if !table_names::is_known_directive(s, at, l) {
        return false;
    }
    let p = parent_of(rows, n, i) as usize;
    if !is_selection(rows, n, p) {
        return false;
    }
    if is_repeated(s, rows, n, first, next, i) {
        return false;
    }
    is_only_if(s, rows, n, first, next, i)
}

// Rule 9: is something wrong with this directive?
pub fn directive_wrong(
    s: &[u8],
    rows: &[u32],
    n: usize,
    first: &[u16],
    next: &[u16],
    i: usize,
) -> bool
    requires { Rowed s.now rows.now n × Family (rows_in rows.now n) first.now next.now × (i < n) }
    ensures { result ≡ directive_wrong (doc_of s.now rows.now n) i }
{
    if kind_of(rows, n, i) != KIND_DIRECTIVE {
        return false;
    }
    !is_right(s, rows, n, first, next, i)
}
