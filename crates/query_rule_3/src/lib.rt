// The first row of a kind and a name; the query rule on names of fragments: 3. Each walks only rows of one kind.
#![tactic(auto)]

ghost use Rattle.std.specs.Prelude.{◌≡◌, ◌+◌, ◌≤◌, ◌<◌, length};
ghost use Rattle.table_book.specs.Book.{part};
ghost use Rattle.paper_query.specs.Constructs.{name_of, fragment_named};
ghost use Rattle.paper_query.specs.Rule3FragmentRepeated.{fragment_repeated};
ghost use Rattle.query_rows.specs.Rowed.{rows_in, doc_of, Rowed};
ghost use Rattle.query_links.specs.Links.{kinds_size, Kinds};
ghost use Rattle.query_rule_3.specs.Called.{first_called};

use paper::KIND_FRAGMENT;
use query_links::link_of;
use query_rows::{is_called, kind_of, name_of, size_of};

// The first row of kind k whose name is the text of l bytes from `at` on in t; n if there is none.
pub fn first_called(
    s: &[u8],
    rows: &[u32],
    n: usize,
    firstk: &[u16],
    nextk: &[u16],
    k: u32,
    t: &[u8],
    at: usize,
    l: usize,
) -> usize
    requires { Rowed s.now rows.now n × Kinds (rows_in rows.now n) firstk.now nextk.now × (k < kinds_size) × (at + l ≤ length t.now) }
    ensures { result ≡ first_called (doc_of s.now rows.now n) k (part t.now at l) }
{
    let mut j = link_of(firstk, k as usize);
    while j < n {
        if is_called(s, rows, n, j, t, at, l) {
            return j;
        }
        j = link_of(nextk, j);
    }
    j
}

// The first fragment whose name is row i's; n if there is none.
pub fn fragment_named(
    s: &[u8],
    rows: &[u32],
    n: usize,
    firstk: &[u16],
    nextk: &[u16],
    i: usize,
) -> usize
    requires { Rowed s.now rows.now n × Kinds (rows_in rows.now n) firstk.now nextk.now × (i < n) }
    ensures { result ≡ fragment_named (doc_of s.now rows.now n) (name_of (doc_of s.now rows.now n) i) }
{
    let at = name_of(rows, n, i) as usize;
    let l = size_of(rows, n, i) as usize;
    first_called(s, rows, n, firstk, nextk, KIND_FRAGMENT, s, at, l)
}

// Rule 3: has an earlier fragment the name of this one?
pub fn fragment_repeated(
    s: &[u8],
    rows: &[u32],
    n: usize,
    firstk: &[u16],
    nextk: &[u16],
    i: usize,
) -> bool
    requires { Rowed s.now rows.now n × Kinds (rows_in rows.now n) firstk.now nextk.now × (i < n) }
    ensures { result ≡ fragment_repeated (doc_of s.now rows.now n) i }
{
    if kind_of(rows, n, i) != KIND_FRAGMENT {
        return false;
    }
    fragment_named(s, rows, n, firstk, nextk, i) < i
}
