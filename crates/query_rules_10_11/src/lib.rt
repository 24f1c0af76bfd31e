// What one operation says of one variable, by the query rules 10 and 11; and the least that operations have said of it so far.
#![tactic(auto)]

ghost use Rattle.std.specs.Prelude.{◌≡◌, ◌&&◌, ◌+◌, ◌<◌};
ghost use Rattle.std.proofs.Math.Option.{some};
ghost use Rattle.paper.specs.Numbers.{kind_operation, kind_variable_definition};
ghost use Rattle.paper_table.specs.Lists.{first_at};
ghost use Rattle.paper_table.specs.Types.{table_of};
ghost use Rattle.paper_query.specs.Constructs.{is, called, name_of};
ghost use Rattle.paper_query.specs.PlaceTypes.{shape_in};
ghost use Rattle.paper_query.specs.Rule10Undefined.{defines_it};
ghost use Rattle.paper_query.specs.Rule11VariableType.{differ};
ghost use Rattle.query_rows.specs.Rowed.{row_in, rows_in, doc_of, Rowed};
ghost use Rattle.query_links.specs.Links.{Family};
ghost use Rattle.query_reach_pass.specs.Marks.{Reached};
ghost use Rattle.query_place_types.specs.Shapes.{coded, Based};
ghost use Rattle.query_places.specs.Placed.{Placed};
ghost use Rattle.query_alike_pair.specs.Alike.{verdict_of, Least};
ghost use Rattle.query_alike.specs.Flags.{Known};

use paper::{KIND_TYPE_REFERENCE, KIND_VARIABLE_DEFINITION};
use paper_query::{RULE_UNDEFINED, RULE_VARIABLE_TYPE};
use query_links::link_of;
use query_place_types::{
    PLACE_BOOLEAN, PLACE_FIRST, PLACE_UNKNOWN, Place, nullable_at, nullable_of,
};
use query_places::place_of;
use query_rows::{extra_of, is_called, kind_of, same_names};
use query_siblings::first_below;

// no rule is broken; rules 10 and 11, as they are flagged
pub const NO_RULE: u16 = 0;

const UNDEFINED: u16 = RULE_UNDEFINED as u16;

const VARIABLE_TYPE: u16 = RULE_VARIABLE_TYPE as u16;

// Is row j a variable definition of row i's name?
fn defines_it(s: &[u8], rows: &[u32], n: usize, j: usize, i: usize) -> bool
    requires { Rowed s.now rows.now n }
    ensures { result ≡ is kind_variable_definition (row_in rows.now n j) && called (doc_of s.now rows.now n) (name_of (doc_of s.now rows.now n) i) (row_in rows.now n j) }
{
    if kind_of(rows, n, j) != KIND_VARIABLE_DEFINITION {
        return false;
    }
    same_names(s, rows, n, j, i)
}

// The row of the first definition, by the operation of row o, of the variable of row i; n if there is none.
pub fn definition_of(
    s: &[u8],
    rows: &[u32],
    n: usize,
    first: &[u16],
    next: &[u16],
    o: usize,
    i: usize,
) -> usize
    requires { Rowed s.now rows.now n × Family (rows_in rows.now n) first.now next.now × (o < n) }
    ensures { result ≡ first_at (defines_it (doc_of s.now rows.now n) o (name_of (doc_of s.now rows.now n) i)) (rows_in rows.now n) }
{
    let mut j = link_of(first, o);
    while j < n {
        let after = link_of(next, j);
        if defines_it(s, rows, n, j, i) {
            return j;
        }
        j = after;
    }
    j
}

// Is the type reference of row r another type than that of the place p, but for the outermost Non-Null? Wrappers are compared first.
fn differs(t: &[u8], es: &[u16], s: &[u8], rows: &[u32], n: usize, r: usize, p: Place) -> bool
    requires { Rowed s.now rows.now n × Based t.now es.now p }
    ensures { result ≡ differ (some (shape_in (doc_of s.now rows.now n) (row_in rows.now n r))) (coded t.now es.now p) }
{
    if p.at == PLACE_UNKNOWN {
        return false;
    }
    let declared = extra_of(rows, n, r);
    let bare = nullable_of(declared);
    let due = nullable_at(p);
    if bare != due {
        return true;
    }
    if p.at == PLACE_BOOLEAN {
        return !is_called(s, rows, n, r, b"Boolean", 0, 7);
    }
    let b = table_entries::type_of(es, (p.at - PLACE_FIRST) as usize);
    !is_called(s, rows, n, r, t, b.at, b.size)
}

// What the operation of row o says of the variable of row i: rule 10, 11 or none.
fn verdict(
    t: &[u8],
    s: &[u8],
    rows: &[u32],
    n: usize,
    first: &[u16],
    next: &[u16],
    at: &[u16],
    es: &[u16],
    wrappers: &[u16],
    o: usize,
    i: usize,
) -> u16
    requires { Rowed s.now rows.now n × Family (rows_in rows.now n) first.now next.now × Placed t.now s.now rows.now n at.now es.now wrappers.now × (o < n) }
    ensures { result ≡ verdict_of (table_of t.now) (doc_of s.now rows.now n) o i }
{
    let v = definition_of(s, rows, n, first, next, o, i);
    if n <= v {
        return UNDEFINED;
    }
    let r = first_below(rows, n, first, next, KIND_TYPE_REFERENCE, v);
    if n <= r {
        return NO_RULE;
    }
    let p = place_of(rows, n, at, wrappers, i);
    if differs(t, es, s, rows, n, r, p) {
        return VARIABLE_TYPE;
    }
    NO_RULE
}

// The least that is said of the variable of row i up to the operation of row o, where that before it is f. Rule 10 is the least there is.
pub fn lesser(
    t: &[u8],
    s: &[u8],
    rows: &[u32],
    n: usize,
    first: &[u16],
    next: &[u16],
    at: &[u16],
    es: &[u16],
    wrappers: &[u16],
    owner: &[u16],
    mark: &[u16],
    o: usize,
    i: usize,
    f: u16,
) -> u16
    requires { Known t.now s.now rows.now n first.now next.now at.now es.now wrappers.now owner.now × Reached (doc_of s.now rows.now n) o mark.now × ((row_in rows.now n o).kind ≡ kind_operation) × (i < n) × Least (table_of t.now) (doc_of s.now rows.now n) o i f }
    ensures { Least (table_of t.now) (doc_of s.now rows.now n) (o + 1) i result }
{
    if f == UNDEFINED {
        return f;
    }
    if !query_reach::reaches(s, rows, n, owner, mark, o, i) {
        return f;
    }
    let v = verdict(t, s, rows, n, first, next, at, es, wrappers, o, i);
    if v == NO_RULE {
        return f;
    }
    v
}
