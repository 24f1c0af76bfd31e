// The planner's first pass: what each row of a document is to the plan, and what is tested before it, as twelve numbers a row.
// All reading of names, directives, literals, fragments and types is done here, once for each row.
#![tactic(auto)]

ghost use Rattle.std.specs.Prelude.{◌≡◌, true, false, [], ◌∷◌, ◌++◌, ◌+◌, ◌*◌, ◌≤◌, ◌<◌, length};
ghost use Rattle.std.proofs.lemmas.List.Edits.{sets};
ghost use Rattle.paper.specs.Numbers.{most_rows, kind_spread};
ghost use Rattle.paper_table.specs.Lists.{bytes};
ghost use Rattle.paper_table.specs.Types.{table_of};
ghost use Rattle.paper_query.specs.Constructs.{is, is_selection, name_of, fragment_named};
ghost use Rattle.paper_query.specs.Enclosing.{condition_of};
ghost use Rattle.table_types.specs.Booked.{Booked};
ghost use Rattle.query_rows.specs.Rowed.{row_in, rows_in, doc_of, Rowed};
ghost use Rattle.query_links.specs.Links.{Family};
ghost use Rattle.paper_plan.specs.Planning.{skip_tests, include_tests, dropped};
ghost use Rattle.paper_plan.specs.Selecting.{type_number, type_on, type_if, fragment_number, if_of};
ghost use Rattle.plan_tests.specs.Right.{row_cells, Given, Small, PutIf, skip_drops_by, include_drops_by, drops_by, spread_row, inline_row, TestsAre, RightRow, TableTo};

use paper::{KIND_FIELD, KIND_SPREAD, KIND_TYPE_REFERENCE};
use paper_plan::{TEST_IF_MET, TEST_IF_TRUE, TEST_UNLESS_APPLIES, TEST_UNLESS_TRUE};
use plan_conditions::IfValue;
use plan_steps::{
    CELL_ABOVE, CELL_BEHIND, CELL_COUNT, CELL_TESTS, ROW_CELLS, WHAT_DROPPED, WHAT_FIELD,
    WHAT_NESTED, WHAT_NONE,
};
use query_links::link_of;
use query_rows::{is_selection, kind_of, name_of, parent_of, size_of};
use query_siblings::first_below;

// Writes what a row is.
fn put_head(row: &mut [u16], what: u16, above: u32, behind: u32, count: u32)
    requires { (length row.old ≡ row_cells) × (above ≤ most_rows) × (behind ≤ most_rows) × (count ≤ most_rows) }
    ensures { row.new ≡ sets row.old 0 (what ∷ above ∷ behind ∷ count ∷ []) }
{
    row[0] = what;
    row[CELL_ABOVE] = above as u16;
    row[CELL_BEHIND] = behind as u16;
    row[CELL_COUNT] = count as u16;
}

// Writes test m of a row.
fn put_test(row: &mut [u16], m: usize, kind: u16, number: u32)
    requires { (length row.old ≡ row_cells) × (m < 4) × (number ≤ most_rows) }
    ensures { row.new ≡ sets row.old (4 + 2 * m) (kind ∷ number ∷ []) }
{
    row[CELL_TESTS + 2 * m] = kind;
    row[CELL_TESTS + 2 * m + 1] = number as u16;
}

// Writes the test of a variable's `if`, of the kind, as test m; how many tests there are then.
fn put_if(row: &mut [u16], m: usize, kind: u16, given: Option<IfValue>) -> usize
    requires { (length row.old ≡ row_cells) × (m < 4) × Small given }
    ensures { PutIf row.old m kind given row.new result }
{
    let Some(value) = given else {
        return m;
    };
    match value {
        IfValue::Literal(_) => m,
        IfValue::Variable(v) => {
            put_test(row, m, kind, v as u32);
            m + 1
        }
    }
}

// Does the `if` of a @skip drop its selection?
fn skip_drops(given: Option<IfValue>) -> bool
    ensures { result ≡ skip_drops_by given }
{
    let Some(value) = given else {
        return false;
    };
    match value {
        IfValue::Literal(b) => b,
        IfValue::Variable(_) => false,
    }
}

// Does the `if` of an @include drop its selection?
fn include_drops(given: Option<IfValue>) -> bool
    ensures { result ≡ include_drops_by given }
{
    let Some(value) = given else {
        return false;
    };
    match value {
        IfValue::Literal(b) => !b,
        IfValue::Variable(_) => false,
    }
}

// Does one of them?
fn drops(skip: Option<IfValue>, include: Option<IfValue>) -> bool
    ensures { result ≡ drops_by skip include }
{
    if skip_drops(skip) {
        return true;
    }
    include_drops(include)
}

// The number of the type that row j names; the count of the table's definitions if it is no object, interface or union.
fn type_named(t: &[u8], book: &[u32], s: &[u8], rows: &[u32], n: usize, j: usize) -> u32
    requires { Booked t.now book.now × Rowed s.now rows.now n }
    ensures { result ≡ type_number (table_of t.now) (name_of (doc_of s.now rows.now n) j) }
{
    let at = name_of(rows, n, j) as usize;
    let l = size_of(rows, n, j) as usize;
    let c = query_types::composite(t, book, s, at, l);
    if c == query_types::NO_TYPE {
        return table_book::count_of(book) as u32;
    }
    (c - 1) as u32
}

// The number of the type of the fragment of row f; the count of definitions if it has no condition.
fn type_on(
    t: &[u8],
    book: &[u32],
    s: &[u8],
    rows: &[u32],
    n: usize,
    first: &[u16],
    next: &[u16],
    f: usize,
) -> u32
    requires { Booked t.now book.now × Rowed s.now rows.now n × Family (rows_in rows.now n) first.now next.now × (f < n) }
    ensures { result ≡ type_on (table_of t.now) (doc_of s.now rows.now n) (condition_of (doc_of s.now rows.now n) f) }
{
    let j = first_below(rows, n, first, next, KIND_TYPE_REFERENCE, f);
    if n <= j {
        return table_book::count_of(book) as u32;
    }
    type_named(t, book, s, rows, n, j)
}

// The spread of row i, behind m tests: its fragment's mark, then the fragment's type.
fn fill_spread(
    t: &[u8],
    book: &[u32],
    s: &[u8],
    rows: &[u32],
    n: usize,
    first: &[u16],
    next: &[u16],
    firstk: &[u16],
    nextk: &[u16],
    ranks: &[u16],
    keys: &[u16],
    i: usize,
    above: u32,
    m: usize,
    row: &mut [u16],
)
    requires { Given t.now book.now s.now rows.now n first.now next.now firstk.now nextk.now ranks.now keys.now × (i < n) × (is kind_spread (row_in rows.now n i) ≡ true) × (m ≤ 2) × (above ≤ most_rows) × (length row.old ≡ row_cells) }
    ensures { row.new ≡ spread_row row.old m above (fragment_number (doc_of s.now rows.now n) (name_of (doc_of s.now rows.now n) i)) (type_on (table_of t.now) (doc_of s.now rows.now n) (condition_of (doc_of s.now rows.now n) (fragment_named (doc_of s.now rows.now n) (name_of (doc_of s.now rows.now n) i)))) (fragment_named (doc_of s.now rows.now n) (name_of (doc_of s.now rows.now n) i)) }
{
    let f = query_rule_3::fragment_named(s, rows, n, firstk, nextk, i);
    let number = link_of(ranks, f);
    let type_number = type_on(t, book, s, rows, n, first, next, f);
    put_test(row, m, TEST_IF_MET, number as u32);
    put_test(row, m + 1, TEST_UNLESS_APPLIES, type_number);
    put_head(row, WHAT_NESTED, above, f as u32, (m + 2) as u32);
}

// The inline fragment of row i, behind m tests: its type, if it is conditioned.
fn fill_inline(
    t: &[u8],
    book: &[u32],
    s: &[u8],
    rows: &[u32],
    n: usize,
    first: &[u16],
    next: &[u16],
    i: usize,
    above: u32,
    m: usize,
    row: &mut [u16],
)
    requires { Booked t.now book.now × Rowed s.now rows.now n × Family (rows_in rows.now n) first.now next.now × (i < n) × (m ≤ 2) × (above ≤ most_rows) × (length row.old ≡ row_cells) }
    ensures { row.new ≡ inline_row row.old m above i (type_if (table_of t.now) (doc_of s.now rows.now n) (condition_of (doc_of s.now rows.now n) i)) }
{
    let j = first_below(rows, n, first, next, KIND_TYPE_REFERENCE, i);
    if n <= j {
        put_head(row, WHAT_NESTED, above, i as u32, m as u32);
        return;
    }
    let type_number = type_named(t, book, s, rows, n, j);
    put_test(row, m, TEST_UNLESS_APPLIES, type_number);
    put_head(row, WHAT_NESTED, above, i as u32, (m + 1) as u32);
}

// The selection of row i, which is not dropped, behind the m tests of its directives.
fn fill_kept(
    t: &[u8],
    book: &[u32],
    s: &[u8],
    rows: &[u32],
    n: usize,
    first: &[u16],
    next: &[u16],
    firstk: &[u16],
    nextk: &[u16],
    ranks: &[u16],
    keys: &[u16],
    o: usize,
    i: usize,
    m: usize,
    row: &mut [u16],
)
    requires { Given t.now book.now s.now rows.now n first.now next.now firstk.now nextk.now ranks.now keys.now × (i < n) × (is_selection (row_in rows.now n i) ≡ true) × (m ≤ 2) × TestsAre row.old m (skip_tests (if_of (doc_of s.now rows.now n) o (bytes "skip") i) ++ include_tests (if_of (doc_of s.now rows.now n) o (bytes "include") i)) × (dropped (if_of (doc_of s.now rows.now n) o (bytes "skip") i) (if_of (doc_of s.now rows.now n) o (bytes "include") i) ≡ false) }
    ensures { RightRow t.now s.now rows.now n o i row.new }
{
    let kind = kind_of(rows, n, i);
    let above = parent_of(rows, n, i);
    if kind == KIND_FIELD {
        put_head(row, WHAT_FIELD, above, keys[i] as u32, m as u32);
        return;
    }
    if kind == KIND_SPREAD {
        fill_spread(
            t, book, s, rows, n, first, next, firstk, nextk, ranks, keys, i, above, m, row,
        );
        return;
    }
    fill_inline(t, book, s, rows, n, first, next, i, above, m, row);
}

// Any row.
fn fill_row(
    t: &[u8],
    book: &[u32],
    s: &[u8],
    rows: &[u32],
    n: usize,
    first: &[u16],
    next: &[u16],
    firstk: &[u16],
    nextk: &[u16],
    ranks: &[u16],
    keys: &[u16],
    o: usize,
    i: usize,
    row: &mut [u16],
)
    requires { Given t.now book.now s.now rows.now n first.now next.now firstk.now nextk.now ranks.now keys.now × (i < n) × (o ≤ most_rows) × (length row.old ≡ row_cells) }
    ensures { RightRow t.now s.now rows.now n o i row.new }
{
    if !is_selection(kind_of(rows, n, i)) {
        put_head(row, WHAT_NONE, parent_of(rows, n, i), 0, 0);
        return;
    }
    let skip = plan_conditions::condition(s, rows, n, first, next, o, i, b"skip", 0, 4);
    let include = plan_conditions::condition(s, rows, n, first, next, o, i, b"include", 0, 7);
    if drops(skip, include) {
        put_head(row, WHAT_DROPPED, parent_of(rows, n, i), 0, 0);
        return;
    }
    let k = put_if(row, 0, TEST_IF_TRUE, skip);
    let m = put_if(row, k, TEST_UNLESS_TRUE, include);
    fill_kept(
        t, book, s, rows, n, first, next, firstk, nextk, ranks, keys, o, i, m, row,
    );
}

// Fills the table, for the operation of row o.
pub fn fill_table(
    t: &[u8],
    book: &[u32],
    s: &[u8],
    rows: &[u32],
    n: usize,
    first: &[u16],
    next: &[u16],
    firstk: &[u16],
    nextk: &[u16],
    ranks: &[u16],
    keys: &[u16],
    o: usize,
    cells: &mut [u16],
)
    requires { Given t.now book.now s.now rows.now n first.now next.now firstk.now nextk.now ranks.now keys.now × (o ≤ most_rows) × (row_cells * n ≤ length cells.old) }
    ensures { TableTo t.now s.now rows.now n o cells.new n }
{
    for i in 0..n {
        let from = ROW_CELLS * i;
        let to = from + ROW_CELLS;
        fill_row(
            t,
            book,
            s,
            rows,
            n,
            first,
            next,
            firstk,
            nextk,
            ranks,
            keys,
            o,
            i,
            &mut cells[from..to],
        );
    }
}
