// Coerces the variables of an operation, in definition order, from the variables text and the definitions' defaults; and keeps, of each that
// has a value, where this stands and at which type, so that a field's arguments can be coerced.
#![tactic(auto)]

ghost use Rattle.std.specs.Prelude.{◌≡◌, List, [], ◌∷◌, ℕ, ◌+◌, ◌*◌, ◌≤◌, ◌<◌, length};
ghost use Rattle.std.proofs.lemmas.List.Edits.{sets};
ghost use Rattle.paper.specs.Numbers.{row_size, most_variables};
ghost use Rattle.paper_table.specs.References.{Ref};
ghost use Rattle.table_book.specs.Book.{part};
ghost use Rattle.query_rows.specs.Rowed.{row_in, doc_of, Sized};
ghost use Rattle.paper_values.specs.Values.{Got, no_pairs};
ghost use Rattle.paper_values.specs.Computed.{pair_first, constant, variables_from, variables_of};
ghost use Rattle.paper_values.specs.RowValues.{value_of_row};
ghost use Rattle.paper_values.specs.DocumentDues.{definitions_of, given_in, variable_dues};
ghost use Rattle.value_writing.specs.Writing.{Room};
ghost use Rattle.value_kinds.specs.Dues.{DueIs, Fits};
ghost use Rattle.value_held.specs.Given.{Ready, kinds_in, ToldPairs};
ghost use Rattle.value_coerce.specs.Coercing.{Meant};
ghost use Rattle.value_variables.specs.Variables.{small, told, is_definition, Asked, Same, givens_in, only_at, Told, Grows};

use paper::{
    INPUT_DOCUMENT, INPUT_VARIABLES, KIND_OBJECT_FIELD, KIND_VARIABLE_DEFINITION, ROW_SIZE,
};
use paper_table::TAG_NAME;
use paper_values::{REASON_REPEATED, TAG_PAIR};
use query_rows::{kind_of, name_of, parent_of, size_of};
use value_coerce::{ALL_LEVELS, value};
use value_definitions::{declared_of, default_of};
use value_entries::first_repeated;
use value_held::{
    HELD_NUMBER, HELD_ROW, HELD_SIZE, HELD_SORT, HELD_TEXT, HELD_WRAPPERS, given, lacking,
};
use value_kinds::{Due, RefusedRow};
use value_writing::{close, place, put_field};

// Up to where the pairs of variables are written, and how many have values.
#[derive(Clone, Copy)]
pub struct WrittenPairs {
    pub at: usize,
    pub many: usize,
}

// A value that is refused, by text and row, and the reason why.
#[derive(Clone, Copy)]
pub struct RefusedAt {
    pub text: u32,
    pub row: usize,
    pub why: u32,
}

// The numbers that are kept of all variables of an operation: seven of each of 64.
pub const HELD_ROOM: usize = 448;

// Definitions of a table have smaller numbers than this.
const MOST_NUMBER: usize = 2048;

// A definition's number in the table, which has few; of a type that is none there it does not matter.
fn small_number(number: usize) -> u32
    ensures { result ≡ small number }
{
    if number <= MOST_NUMBER {
        return number as u32;
    }
    0
}

// Keeps a variable behind `many` others: its name's place and size in the document, the text and row of its value, its type.
fn keep(held: &mut [u32], many: usize, at: u32, size: u32, text: u32, row: u32, due: Due)
    requires { row_size * (many + 1) ≤ length held.old }
    ensures { held.new ≡ sets held.old (row_size * many) (at ∷ size ∷ text ∷ row ∷ due.sort ∷ small due.number ∷ due.wrappers ∷ []) }
{
    let number = small_number(due.number);
    let from = ROW_SIZE * many;
    held[from] = at;
    held[from + HELD_SIZE] = size;
    held[from + HELD_TEXT] = text;
    held[from + HELD_ROW] = row;
    held[from + HELD_SORT] = due.sort;
    held[from + HELD_NUMBER] = number;
    held[from + HELD_WRAPPERS] = due.wrappers;
}

// Writes the pair of a name, the l bytes of `names` from `at` on, and the constant of row i at its type.
// The place past what was written, or Err with the row that is refused.
fn put_pair(
    t: &[u8],
    book: &[u32],
    s: &[u8],
    rows: &[u32],
    n: usize,
    past: &[u32],
    i: usize,
    due: Due,
    names: &[u8],
    at: usize,
    l: usize,
    held: &[u32],
    out: &mut [u8],
    limit: usize,
    from: usize,
) -> Result<usize, RefusedRow>
    requires { Ready t.now book.now s.now rows.now n past.now × (i ≤ n) × Fits book.now due.sort due.number due.wrappers × Meant t.now book.now due.sort due.number due.wrappers × (at + l ≤ length names.now) × Room limit from out.old }
    ensures { (text : ℕ) (r : Ref) → DueIs t.now book.now r due.sort due.number due.wrappers →
        ToldPairs text limit (pair_first (part names.now at l) (constant (kinds_in t.now) (value_of_row text (doc_of s.now rows.now n) i) r) (Got no_pairs)) from out.old out.new result }
{
    let start = place(limit, from, 3);
    let stop = at + l;
    let middle = put_field(out, limit, start, TAG_NAME, &names[at..stop]);
    let e = value(
        t, book, s, rows, n, past, i, ALL_LEVELS, due, s, rows, n, past, held, 0, out, limit,
        middle,
    )?;
    Ok(close(out, limit, from, TAG_PAIR, e))
}

// A writer's answer for a row of this text, after which `many` variables have values.
fn of_pair(text: u32, r: Result<usize, RefusedRow>, many: usize) -> Result<WrittenPairs, RefusedAt>
    ensures { result ≡ told text many r }
{
    match r {
        Ok(e) => Ok(WrittenPairs { at: e, many }),
        Err(RefusedRow { row, why }) => Err(RefusedAt { text, row, why }),
    }
}

// Is row v a variable definition of the operation of row op?
fn is_definition(rows: &[u32], n: usize, op: usize, v: usize) -> bool
    requires { Sized rows.now n }
    ensures { result ≡ is_definition op (row_in rows.now n v) }
{
    if kind_of(rows, n, v) != KIND_VARIABLE_DEFINITION {
        return false;
    }
    parent_of(rows, n, v) as usize == op
}

// Coerces the variable that row v defines, behind `many` that have values.
fn variable(
    t: &[u8],
    book: &[u32],
    s: &[u8],
    rows: &[u32],
    n: usize,
    past: &[u32],
    v: usize,
    s1: &[u8],
    rows1: &[u32],
    n1: usize,
    past1: &[u32],
    held: &mut [u32],
    many: usize,
    out: &mut [u8],
    limit: usize,
    from: usize,
) -> Result<WrittenPairs, RefusedAt>
    requires { Asked t.now book.now s.now rows.now n past.now s1.now rows1.now n1 past1.now × (v < n) × (row_size * (many + 1) ≤ length held.old) × Room limit from out.old × (many < most_variables) }
    ensures { Told t.now book.now s.now rows.now n s1.now rows1.now n1 limit
        (only_at t.now (doc_of s.now rows.now n) (doc_of s1.now rows1.now n1) v) many from out.old out.new held.new result
        × Same many held.old held.new × Grows many result }
{
    let name = name_of(rows, n, v);
    let size = size_of(rows, n, v);
    let at = name as usize;
    let l = size as usize;
    let due = declared_of(t, book, s, rows, n, past, v);
    let c = given(
        s1,
        rows1,
        n1,
        past1,
        0,
        ALL_LEVELS,
        KIND_OBJECT_FIELD,
        held,
        0,
        s,
        at,
        l,
    );
    if c < n1 {
        keep(held, many, name, size, INPUT_VARIABLES, c as u32 + 1, due);
        let r = put_pair(
            t,
            book,
            s1,
            rows1,
            n1,
            past1,
            c + 1,
            due,
            s,
            at,
            l,
            held,
            out,
            limit,
            from,
        );
        return of_pair(INPUT_VARIABLES, r, many + 1);
    }
    let Some(i) = default_of(s, rows, n, past, v) else {
        return of_pair(INPUT_DOCUMENT, lacking(limit, from, v, due.wrappers), many);
    };
    keep(held, many, name, size, INPUT_DOCUMENT, i as u32, due);
    let r = put_pair(
        t, book, s, rows, n, past, i, due, s, at, l, held, out, limit, from,
    );
    of_pair(INPUT_DOCUMENT, r, many + 1)
}

// Coerces the variables that the operation of row op defines, where no name of the variables text is repeated.
fn in_order(
    t: &[u8],
    book: &[u32],
    s: &[u8],
    rows: &[u32],
    n: usize,
    past: &[u32],
    op: usize,
    s1: &[u8],
    rows1: &[u32],
    n1: usize,
    past1: &[u32],
    held: &mut [u32],
    out: &mut [u8],
    limit: usize,
    from: usize,
) -> Result<WrittenPairs, RefusedAt>
    requires { Asked t.now book.now s.now rows.now n past.now s1.now rows1.now n1 past1.now × (length (definitions_of (doc_of s.now rows.now n) op) ≤ most_variables) × (length held.old ≡ row_size * most_variables) × Room limit from out.old }
    ensures { Told t.now book.now s.now rows.now n s1.now rows1.now n1 limit
        (variables_from (kinds_in t.now) (givens_in t.now (doc_of s1.now rows1.now n1)) (variable_dues (doc_of s.now rows.now n) op)) 0 from out.old out.new held.new result }
{
    let mut at = from;
    let mut many = 0;
    for v in 0..n {
        if !is_definition(rows, n, op, v) {
            continue;
        }
        let w = variable(
            t, book, s, rows, n, past, v, s1, rows1, n1, past1, held, many, out, limit, at,
        )?;
        at = w.at;
        many = w.many;
    }
    Ok(WrittenPairs { at, many })
}

// Coerces the variables of the operation of row op: a repeated name in the variables text before all else. Err is the value that is refused.
pub fn coerce_variables(
    t: &[u8],
    book: &[u32],
    s: &[u8],
    rows: &[u32],
    n: usize,
    past: &[u32],
    op: usize,
    s1: &[u8],
    rows1: &[u32],
    n1: usize,
    past1: &[u32],
    held: &mut [u32],
    out: &mut [u8],
    limit: usize,
    from: usize,
) -> Result<WrittenPairs, RefusedAt>
    requires { Asked t.now book.now s.now rows.now n past.now s1.now rows1.now n1 past1.now × (length (definitions_of (doc_of s.now rows.now n) op) ≤ most_variables) × (length held.old ≡ row_size * most_variables) × Room limit from out.old }
    ensures { Told t.now book.now s.now rows.now n s1.now rows1.now n1 limit
        (variables_of (kinds_in t.now) (given_in (doc_of s1.now rows1.now n1)) (variable_dues (doc_of s.now rows.now n) op)) 0 from out.old out.new held.new result }
{
    let again = first_repeated(s1, rows1, n1, past1, 0, KIND_OBJECT_FIELD);
    if again < n1 {
        return Err(RefusedAt {
            text: INPUT_VARIABLES,
            row: again,
            why: REASON_REPEATED,
        });
    }
    in_order(
        t, book, s, rows, n, past, op, s1, rows1, n1, past1, held, out, limit, from,
    )
}
