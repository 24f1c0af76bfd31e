// What a coercing call puts into its value: an operation's variables as an object, or the arguments of one of its fields; or a refused value.
// The document is judged and both texts are read already, with the row past each row's subtree.
#![tactic(auto)]

ghost use Rattle.std.specs.Prelude.{◌≡◌, ◌≤◌, length};
ghost use Rattle.paper.specs.Numbers.{most_rows};
ghost use Rattle.query_rows.specs.Rowed.{doc_of};
ghost use Rattle.paper_values.specs.ValueNumbers.{most_coerced};
ghost use Rattle.paper_values.specs.Values.{Pairs, and_then};
ghost use Rattle.paper_values.specs.ValueCalls.{as_object};
ghost use Rattle.value_held.specs.Given.{Ready};
ghost use Rattle.value_held.specs.Holding.{Holds, Holding};
ghost use Rattle.value_variables.specs.Variables.{Asked};
ghost use Rattle.value_results.specs.Results.{Few, argued, coerced_variables, result_of, Gives, Serves, FieldServes};

use paper::{INPUT_DOCUMENT, KIND_ARGUMENT};
use paper_values::{MOST_COERCED, TAG_INPUT};
use value_coerce::{ALL_LEVELS, object};
use value_kinds::RefusedRow;
use value_variables::{RefusedAt, coerce_variables};
use value_writing::{close, place};

// What is to be coerced: an operation's variables, or the arguments of the field of a row, whose definitions are in this content.
#[derive(Clone, Copy)]
pub enum Task {
    OfOperation,
    OfField {
        row: usize,
        start: usize,
        end: usize,
    },
}

// A value that is refused, by text and row, and the reason why, as a report shows them.
#[derive(Clone, Copy)]
pub struct RefusedValue {
    pub text: u32,
    pub row: u32,
    pub why: u32,
}

// A refused value.
fn refused(text: u32, row: usize, why: u32) -> RefusedValue
    requires { row ≤ most_rows }
    ensures { result ≡ record { text = text; row = row; why = why } }
{
    RefusedValue {
        text,
        row: row as u32,
        why,
    }
}

// Coerces the variables of the operation of row op as one object.
fn put_variables(
    t: &[u8],
    book: &[u32],
    s: &[u8],
    rows: &[u32],
    n: usize,
    past: &[u32],
    op: usize,
    s1: &[u8],
    rows1: &[u32],
    n1: usize,
    past1: &[u32],
    held: &mut [u32],
    out: &mut [u8],
) -> Result<usize, RefusedValue>
    requires { Asked t.now book.now s.now rows.now n past.now s1.now rows1.now n1 past1.now × Few (doc_of s.now rows.now n) op held.old out.old }
    ensures { Gives (as_object (coerced_variables t.now (doc_of s.now rows.now n) op (doc_of s1.now rows1.now n1))) out.new result }
{
    let from = place(MOST_COERCED, 0, 3);
    let r = coerce_variables(
        t,
        book,
        s,
        rows,
        n,
        past,
        op,
        s1,
        rows1,
        n1,
        past1,
        held,
        out,
        MOST_COERCED,
        from,
    );
    match r {
        Ok(w) => Ok(close(out, MOST_COERCED, 0, TAG_INPUT, w.at)),
        Err(RefusedAt { text, row, why }) => Err(refused(text, row, why)),
    }
}

// Coerces the arguments of the field of row i, whose definitions stand from `start` up to `end`, where `many` variables have the values held.
fn put_held(
    t: &[u8],
    book: &[u32],
    s: &[u8],
    rows: &[u32],
    n: usize,
    past: &[u32],
    i: usize,
    start: usize,
    end: usize,
    s1: &[u8],
    rows1: &[u32],
    n1: usize,
    past1: &[u32],
    held: &[u32],
    many: usize,
    out: &mut [u8],
) -> Result<usize, RefusedValue>
    requires { Ready t.now book.now s.now rows.now n past.now × FieldServes t.now (doc_of s.now rows.now n) i start end × Holding t.now book.now s.now rows.now n s1.now rows1.now n1 past1.now held.now many × (length out.old ≡ most_coerced) }
    ensures { (ps : Pairs) → Holds t.now book.now s.now rows.now n s1.now rows1.now n1 held.now 0 many ps →
        Gives (argued t.now (doc_of s.now rows.now n) i ps) out.new result }
{
    let c = object(
        t,
        book,
        s,
        rows,
        n,
        past,
        i,
        ALL_LEVELS,
        KIND_ARGUMENT,
        start,
        end,
        s1,
        rows1,
        n1,
        past1,
        held,
        many,
        out,
        MOST_COERCED,
        0,
    );
    match c {
        Ok(e) => Ok(e),
        Err(RefusedRow { row, why }) => Err(refused(INPUT_DOCUMENT, row, why)),
    }
}

// Coerces the variables of the operation of row op, writing none of them, and then the arguments of the field of row i.
fn put_arguments(
    t: &[u8],
    book: &[u32],
    s: &[u8],
    rows: &[u32],
    n: usize,
    past: &[u32],
    op: usize,
    i: usize,
    start: usize,
    end: usize,
    s1: &[u8],
    rows1: &[u32],
    n1: usize,
    past1: &[u32],
    held: &mut [u32],
    out: &mut [u8],
) -> Result<usize, RefusedValue>
    requires { Asked t.now book.now s.now rows.now n past.now s1.now rows1.now n1 past1.now × Few (doc_of s.now rows.now n) op held.old out.old × FieldServes t.now (doc_of s.now rows.now n) i start end }
    ensures { Gives (and_then (coerced_variables t.now (doc_of s.now rows.now n) op (doc_of s1.now rows1.now n1)) (argued t.now (doc_of s.now rows.now n) i)) out.new result }
{
    let r = coerce_variables(
        t,
        book,
        s,
        rows,
        n,
        past,
        op,
        s1,
        rows1,
        n1,
        past1,
        held,
        out,
        MOST_COERCED,
        MOST_COERCED + 1,
    );
    match r {
        Ok(w) => put_held(
            t, book, s, rows, n, past, i, start, end, s1, rows1, n1, past1, held, w.many, out,
        ),
        Err(RefusedAt { text, row, why }) => Err(refused(text, row, why)),
    }
}

// Does the task, where the row past each row's subtree is known in both texts. A value up to this place, past the output's end where it is
// too long, or Err with the value that is refused.
pub fn put_task(
    t: &[u8],
    book: &[u32],
    s: &[u8],
    rows: &[u32],
    n: usize,
    past: &[u32],
    op: usize,
    task: Task,
    s1: &[u8],
    rows1: &[u32],
    n1: usize,
    past1: &[u32],
    held: &mut [u32],
    out: &mut [u8],
) -> Result<usize, RefusedValue>
    requires { Asked t.now book.now s.now rows.now n past.now s1.now rows1.now n1 past1.now × Few (doc_of s.now rows.now n) op held.old out.old × Serves t.now (doc_of s.now rows.now n) task }
    ensures { Gives (result_of t.now (doc_of s.now rows.now n) op (doc_of s1.now rows1.now n1) task) out.new result }
{
    match task {
        Task::OfOperation => put_variables(
            t, book, s, rows, n, past, op, s1, rows1, n1, past1, held, out,
        ),
        Task::OfField { row, start, end } => put_arguments(
            t, book, s, rows, n, past, op, row, start, end, s1, rows1, n1, past1, held, out,
        ),
    }
}
