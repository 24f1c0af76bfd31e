// Judges one row of a document, all made ready: the least rule that it breaks.
#![tactic(auto)]

ghost use Rattle.std.specs.Prelude.{◌≡◌, cond, ◌<◌, length};
ghost use Rattle.paper.specs.Numbers.{kind_operation, kind_fragment, kind_field, kind_argument, kind_variable_definition};
ghost use Rattle.paper_table.specs.Types.{Table, table_of};
ghost use Rattle.table_types.specs.Booked.{Booked};
ghost use Rattle.query_rows.specs.Rowed.{row_in, rows_in, doc_of, Rowed};
ghost use Rattle.query_links.specs.Links.{Family, Kinds};
ghost use Rattle.query_inside.specs.Enclosed.{Enclosed};
ghost use Rattle.query_places.specs.Placed.{Placed};
ghost use Rattle.query_alike.specs.Flags.{Flagged};
ghost use Rattle.query_row_verdict.specs.Least.{LeastAt};
ghost use Rattle.query_row_verdict.specs.Ready.{Ready};

use paper::{
    KIND_ARGUMENT, KIND_DIRECTIVE, KIND_FIELD, KIND_FRAGMENT, KIND_OPERATION, KIND_SPREAD,
    KIND_TYPE_REFERENCE, KIND_VARIABLE, KIND_VARIABLE_DEFINITION,
};
use paper_query::{
    RULE_ARGUMENT, RULE_CONDITION, RULE_DIRECTIVE, RULE_FIELD, RULE_FRAGMENT_REPEATED, RULE_LEAF,
    RULE_NAME_TWICE, RULE_NO_ROOT, RULE_OPERATION_REPEATED, RULE_OPERATION_UNNAMED, RULE_SPREAD,
    RULE_VARIABLE_TYPE,
};
use query_rows::kind_of;

// The rule, if it is broken.
fn rule_if(broken: bool, rule: u32) -> u32
    ensures { result ≡ cond broken rule 0 }
{
    if broken {
        return rule;
    }
    0
}

// Rules 1, 2 and 13 at an operation.
fn operation_rule(
    t: &[u8],
    book: &[u32],
    s: &[u8],
    rows: &[u32],
    n: usize,
    firstk: &[u16],
    nextk: &[u16],
    i: usize,
) -> u32
    requires { Booked t.now book.now × Rowed s.now rows.now n × Kinds (rows_in rows.now n) firstk.now nextk.now × (i < n) × ((row_in rows.now n i).kind ≡ kind_operation) }
    ensures { LeastAt (table_of t.now) (doc_of s.now rows.now n) i result }
{
    if query_rules_1_2::operation_repeated(s, rows, n, firstk, nextk, i) {
        return RULE_OPERATION_REPEATED;
    }
    if query_rules_1_2::operation_unnamed(rows, n, firstk, nextk, i) {
        return RULE_OPERATION_UNNAMED;
    }
    rule_if(
        query_rules_4_13::no_root(t, book, s, rows, n, i),
        RULE_NO_ROOT,
    )
}

// Rules 3 and 8 at a fragment definition.
fn fragment_rule(
    s: &[u8],
    rows: &[u32],
    n: usize,
    firstk: &[u16],
    nextk: &[u16],
    flags: &[u16],
    i: usize,
) -> u32
    requires { Rowed s.now rows.now n × Kinds (rows_in rows.now n) firstk.now nextk.now × (i < length flags.now) × (i < n) × ((row_in rows.now n i).kind ≡ kind_fragment) }
    ensures { (t : Table) → Flagged t (doc_of s.now rows.now n) flags.now → LeastAt t (doc_of s.now rows.now n) i result }
{
    if query_rule_3::fragment_repeated(s, rows, n, firstk, nextk, i) {
        return RULE_FRAGMENT_REPEATED;
    }
    flags[i] as u32
}

// Rules 5 and 6 at a field.
fn field_rule(
    t: &[u8],
    s: &[u8],
    rows: &[u32],
    n: usize,
    first: &[u16],
    next: &[u16],
    inside: &[u16],
    at: &[u16],
    es: &[u16],
    i: usize,
) -> u32
    requires { Rowed s.now rows.now n × Family (rows_in rows.now n) first.now next.now × Enclosed t.now s.now rows.now n inside.now at.now es.now × (i < n) × ((row_in rows.now n i).kind ≡ kind_field) }
    ensures { LeastAt (table_of t.now) (doc_of s.now rows.now n) i result }
{
    if query_rules_5_6::field_missing(t, s, rows, n, inside, at, es, i) {
        return RULE_FIELD;
    }
    let wrong = query_rules_5_6::leaf_wrong(t, s, rows, n, first, next, inside, at, es, i);
    rule_if(wrong, RULE_LEAF)
}

// Rules 12 and 14 at an argument.
fn argument_rule(
    t: &[u8],
    s: &[u8],
    rows: &[u32],
    n: usize,
    first: &[u16],
    next: &[u16],
    inside: &[u16],
    at: &[u16],
    es: &[u16],
    i: usize,
) -> u32
    requires { Rowed s.now rows.now n × Family (rows_in rows.now n) first.now next.now × Placed t.now s.now rows.now n at.now es.now inside.now × (i < n) × ((row_in rows.now n i).kind ≡ kind_argument) }
    ensures { LeastAt (table_of t.now) (doc_of s.now rows.now n) i result }
{
    if query_siblings::name_twice(s, rows, n, first, next, i) {
        return RULE_NAME_TWICE;
    }
    let unknown = query_rule_14::argument_unknown(t, s, rows, n, inside, at, es, i);
    rule_if(unknown, RULE_ARGUMENT)
}

// Rules 11 and 12 at a variable definition.
fn definition_rule(
    t: &[u8],
    book: &[u32],
    s: &[u8],
    rows: &[u32],
    n: usize,
    first: &[u16],
    next: &[u16],
    i: usize,
) -> u32
    requires { Booked t.now book.now × Rowed s.now rows.now n × Family (rows_in rows.now n) first.now next.now × (i < n) × ((row_in rows.now n i).kind ≡ kind_variable_definition) }
    ensures { LeastAt (table_of t.now) (doc_of s.now rows.now n) i result }
{
    if query_places::no_input_type(t, book, s, rows, n, first, next, i) {
        return RULE_VARIABLE_TYPE;
    }
    rule_if(
        query_siblings::name_twice(s, rows, n, first, next, i),
        RULE_NAME_TWICE,
    )
}

// The least rule that row i breaks, or 0.
pub fn rule_at(
    t: &[u8],
    book: &[u32],
    s: &[u8],
    rows: &[u32],
    n: usize,
    first: &[u16],
    next: &[u16],
    firstk: &[u16],
    nextk: &[u16],
    inside: &[u16],
    at: &[u16],
    es: &[u16],
    target: &[u16],
    flags: &[u16],
    i: usize,
) -> u32
    requires { Ready t.now book.now s.now rows.now n first.now next.now firstk.now nextk.now inside.now at.now es.now target.now flags.now × (i < n) }
    ensures { LeastAt (table_of t.now) (doc_of s.now rows.now n) i result }
{
    let kind = kind_of(rows, n, i);
    match kind {
        KIND_OPERATION => operation_rule(t, book, s, rows, n, firstk, nextk, i),
        KIND_FRAGMENT => fragment_rule(s, rows, n, firstk, nextk, flags, i),
        KIND_FIELD => field_rule(t, s, rows, n, first, next, inside, at, es, i),
        KIND_SPREAD => rule_if(
            query_spreads::spread_of_none(s, rows, n, target, i),
            RULE_SPREAD,
        ),
        KIND_ARGUMENT => argument_rule(t, s, rows, n, first, next, inside, at, es, i),
        KIND_DIRECTIVE => rule_if(
            query_rule_9::directive_wrong(s, rows, n, first, next, i),
            RULE_DIRECTIVE,
        ),
        KIND_VARIABLE_DEFINITION => definition_rule(t, book, s, rows, n, first, next, i),
        KIND_TYPE_REFERENCE => rule_if(
            query_rules_4_13::condition_wrong(t, book, s, rows, n, i),
            RULE_CONDITION,
        ),
        KIND_VARIABLE => flags[i] as u32,
        _ => 0,
    }
}
