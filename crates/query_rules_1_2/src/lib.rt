// The query rules on names of operations: 1 and 2. Each walks only rows of one kind.
#![tactic(auto)]

ghost use Rattle.std.specs.Prelude.{◌≡◌, List, ℕ, ◌<◌};
ghost use Rattle.paper_query.specs.Rule1OperationRepeated.{operation_repeated};
ghost use Rattle.paper_query.specs.Rule2OperationUnnamed.{operation_unnamed};
ghost use Rattle.query_rows.specs.Rowed.{rows_in, doc_of, Rowed, Sized};
ghost use Rattle.query_links.specs.Links.{Kinds};

use paper::KIND_OPERATION;
use query_links::link_of;
use query_rows::{kind_of, name_of, size_of};
use query_rule_3::first_called;

// Rule 1: has an earlier operation the name of this one?
#[tactic(auto, using(crate::proofs::OperationLaws::repeated_unnamed))]
pub fn operation_repeated(
    s: &[u8],
    rows: &[u32],
    n: usize,
    firstk: &[u16],
    nextk: &[u16],
    i: usize,
) -> bool
    requires { Rowed s.now rows.now n × Kinds (rows_in rows.now n) firstk.now nextk.now × (i < n) }
    ensures { result ≡ operation_repeated (doc_of s.now rows.now n) i }
{
    if kind_of(rows, n, i) != KIND_OPERATION {
        return false;
    }
    let l = size_of(rows, n, i) as usize;
    if l == 0 {
        return false;
    }
    let at = name_of(rows, n, i) as usize;
    first_called(s, rows, n, firstk, nextk, KIND_OPERATION, s, at, l) < i
}

// Rule 2: is this operation unnamed and not the only one?
pub fn operation_unnamed(rows: &[u32], n: usize, firstk: &[u16], nextk: &[u16], i: usize) -> bool
    requires { Sized rows.now n × Kinds (rows_in rows.now n) firstk.now nextk.now × (i < n) }
    ensures { (s : List ℕ) → result ≡ operation_unnamed (doc_of s rows.now n) i }
{
    if kind_of(rows, n, i) != KIND_OPERATION {
        return false;
    }
    if size_of(rows, n, i) != 0 {
        return false;
    }
    if link_of(firstk, KIND_OPERATION as usize) < i {
        return true;
    }
    link_of(nextk, i) < n
}
