// The query rule 14: what a table says of a field's arguments. It is judged where the field is known.
// No name is looked up for it: an argument that its field has not is one at which no type is due, and those types are kept.
#![tactic(auto)]

ghost use Rattle.std.specs.Prelude.{◌≡◌};
ghost use Rattle.paper_table.specs.Types.{table_of};
ghost use Rattle.paper_query.specs.Rule14Argument.{argument_unknown};
ghost use Rattle.query_rows.specs.Rowed.{doc_of, Rowed};
ghost use Rattle.query_places.specs.Placed.{Placed};

use paper::{KIND_ARGUMENT, KIND_FIELD};
use query_fields::FIELD_TYPENAME;
use query_place_types::PLACE_UNKNOWN;
use query_rows::{kind_of, parent_of};

// 14: row i is an argument unknown to its field.
pub fn argument_unknown(
    t: &[u8],
    s: &[u8],
    rows: &[u32],
    n: usize,
    inside: &[u16],
    at: &[u16],
    es: &[u16],
    i: usize,
) -> bool
    requires { Rowed s.now rows.now n × Placed t.now s.now rows.now n at.now es.now inside.now }
    ensures { result ≡ argument_unknown (table_of t.now) (doc_of s.now rows.now n) i }
{
    if kind_of(rows, n, i) != KIND_ARGUMENT {
        return false;
    }
    let p = parent_of(rows, n, i) as usize;
    if kind_of(rows, n, p) != KIND_FIELD {
        return false;
    }
    if at[p] < FIELD_TYPENAME {
        return false;
    }
    at[i] == PLACE_UNKNOWN
}
