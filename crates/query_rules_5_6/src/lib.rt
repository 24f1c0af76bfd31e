// The query rules 5 and 6: what a table says of fields and their selections. They are judged where the enclosing type is known.
#![tactic(auto)]

ghost use Rattle.std.specs.Prelude.{◌≡◌, ◌<◌};
ghost use Rattle.paper_table.specs.Types.{table_of};
ghost use Rattle.paper_query.specs.Rule5Field.{field_not_of_type};
ghost use Rattle.paper_query.specs.Rule6Leaf.{has_selections, leaf_wrong};
ghost use Rattle.query_rows.specs.Rowed.{rows_in, doc_of, Rowed};
ghost use Rattle.query_links.specs.Links.{Family};
ghost use Rattle.query_inside.specs.Enclosed.{Enclosed};

use paper::KIND_FIELD;
use query_fields::{FIELD_MISSING, FIELD_TYPENAME};
use query_links::link_of;
use query_rows::{is_selection, kind_of};
use query_types::NO_TYPE;

// 5: row i is a field, and not of the enclosing type.
pub fn field_missing(
    t: &[u8],
    s: &[u8],
    rows: &[u32],
    n: usize,
    inside: &[u16],
    at: &[u16],
    es: &[u16],
    i: usize,
) -> bool
    requires { Rowed s.now rows.now n × Enclosed t.now s.now rows.now n inside.now at.now es.now × (i < n) }
    ensures { result ≡ field_not_of_type (table_of t.now) (doc_of s.now rows.now n) i }
{
    if kind_of(rows, n, i) != KIND_FIELD {
        return false;
    }
    at[i] == FIELD_MISSING
}

// Does a selection stand right below row i?
pub fn has_selections(
    s: &[u8],
    rows: &[u32],
    n: usize,
    first: &[u16],
    next: &[u16],
    i: usize,
) -> bool
    requires { Rowed s.now rows.now n × Family (rows_in rows.now n) first.now next.now × (i < n) }
    ensures { result ≡ has_selections (doc_of s.now rows.now n) i }
{
    let mut j = link_of(first, i);
    while j < n {
        if is_selection(kind_of(rows, n, j)) {
            return true;
        }
        j = link_of(next, j);
    }
    false
}

// 6: row i is a field with selections although it is a leaf, or without them although it is none.
pub fn leaf_wrong(
    t: &[u8],
    s: &[u8],
    rows: &[u32],
    n: usize,
    first: &[u16],
    next: &[u16],
    inside: &[u16],
    at: &[u16],
    es: &[u16],
    i: usize,
) -> bool
    requires { Rowed s.now rows.now n × Family (rows_in rows.now n) first.now next.now × Enclosed t.now s.now rows.now n inside.now at.now es.now × (i < n) }
    ensures { result ≡ leaf_wrong (table_of t.now) (doc_of s.now rows.now n) i }
{
    if kind_of(rows, n, i) != KIND_FIELD {
        return false;
    }
    if at[i] < FIELD_TYPENAME {
        return false;
    }
    if has_selections(s, rows, n, first, next, i) {
        return inside[i] == NO_TYPE;
    }
    inside[i] != NO_TYPE
}
