// The whole answers to `gw_coerce_variables` and `gw_coerce_arguments`: the sizes are tested, an operation is opened, the variables text is
// read, and the operation's variables are coerced, or the arguments of one of its fields.
// Each large array is made in a function of its own, so that the rows of the variables text take no room while the document is judged.
#![tactic(auto)]

ghost use Rattle.std.specs.Prelude.{◌≡◌, ◌≤◌, ◌<◌, length};
ghost use Rattle.paper.specs.Numbers.{most_text, rows_size, report_size};
ghost use Rattle.paper.specs.Language.{VariablesText};
ghost use Rattle.table_book.specs.Book.{book_size};
ghost use Rattle.query_rows.specs.Rowed.{doc_of, room_of};
ghost use Rattle.query_rows.proofs.ReadRows.{Taken};
ghost use Rattle.paper_values.specs.ValueNumbers.{most_coerced};
ghost use Rattle.paper_values.specs.ValueCalls.{ValueShort, Coerced as CoercedBy, CoercedVariables, CoercedArguments};
ghost use Rattle.value_endings.specs.Endings.{ending_of};
ghost use Rattle.value_results.specs.Results.{held_room, result_of, Serves};
ghost use Rattle.value_answers.specs.Answers.{EndFor, ended_of, Gives, ReadEnd, OpenEnd, Stands, Standing, Ends};

use paper::{REFUSE_BUFFER, REPORT_SIZE, ROWS_SIZE};
use paper_values::MOST_COERCED;
use query_links::{FEW_ROWS, ROWS};
use query_opening::OpenedOperation;
use table_book::BOOK_SIZE;
use value_endings::NotCoerced;
use value_fields::{Span, find_wanted};
use value_results::{RefusedValue, Task, put_task};
use value_variables::HELD_ROOM;

// What a call coerces: an operation's variables, or the arguments of the field of a row.
#[derive(Clone, Copy)]
enum Call {
    Variables,
    Arguments(u32),
}

// How a call ends whose task comes to this.
fn ended(o: Result<usize, RefusedValue>) -> Result<usize, NotCoerced>
    ensures { result ≡ ended_of o }
{
    match o {
        Ok(at) => Ok(at),
        Err(RefusedValue { text, row, why }) => Err(NotCoerced::Refused { text, row, why }),
    }
}

// Does the task and says how the call ends by it; the row past each row's subtree is yet to be found, in lists that are lent.
// A value up to this place, past the output's end where it is too long, or Err with the reason why there is none.
fn coerce_with(
    t: &[u8],
    book: &[u32],
    s: &[u8],
    rows: &[u32],
    n: usize,
    past: &mut [u32],
    op: usize,
    task: Task,
    s1: &[u8],
    rows1: &[u32],
    n1: usize,
    past1: &mut [u32],
    held: &mut [u32],
    out: &mut [u8],
) -> Result<usize, NotCoerced>
    requires { Stands t.now book.now s.now rows.now n × Serves t.now (doc_of s.now rows.now n) task × Taken VariablesText s1.now rows1.now n1 × (length past.old ≡ room_of n) × (length past1.old ≡ room_of n1) × (length held.old ≡ held_room) × (length out.old ≡ most_coerced) }
    ensures { Gives (result_of t.now (doc_of s.now rows.now n) op (doc_of s1.now rows1.now n1) task) out.new result }
{
    query_subtrees::fill_pasts(rows, n, past);
    query_subtrees::fill_pasts(rows1, n1, past1);
    let o = put_task(
        t, book, s, rows, n, past, op, task, s1, rows1, n1, past1, held, out,
    );
    ended(o)
}

// The same with lists of its own, one of this length: few for few rows of the variables text, so that little is cleared.
fn coerce_in<const ROOM: usize>(
    t: &[u8],
    book: &[u32],
    s: &[u8],
    rows: &[u32],
    n: usize,
    past: &mut [u32],
    op: usize,
    task: Task,
    s1: &[u8],
    rows1: &[u32],
    n1: usize,
    out: &mut [u8],
) -> Result<usize, NotCoerced>
    requires { Stands t.now book.now s.now rows.now n × Serves t.now (doc_of s.now rows.now n) task × Taken VariablesText s1.now rows1.now n1 × (length past.old ≡ room_of n) × (length out.old ≡ most_coerced) × (ROOM ≡ room_of n1) }
    ensures { Gives (result_of t.now (doc_of s.now rows.now n) op (doc_of s1.now rows1.now n1) task) out.new result }
{
    let mut past1 = [0u32; ROOM];
    let mut held = [0u32; HELD_ROOM];
    coerce_with(
        t, book, s, rows, n, past, op, task, s1, rows1, n1, &mut past1, &mut held, out,
    )
}

// Reads the variables text into the lent rows, and does the task.
fn read_with(
    t: &[u8],
    book: &[u32],
    s: &[u8],
    rows: &[u32],
    n: usize,
    past: &mut [u32],
    op: usize,
    task: Task,
    s1: &[u8],
    rows1: &mut [u32],
    out: &mut [u8],
) -> Result<usize, NotCoerced>
    requires { Stands t.now book.now s.now rows.now n × Serves t.now (doc_of s.now rows.now n) task × (length past.old ≡ room_of n) × (length s1.now ≤ most_text) × (length rows1.old ≡ rows_size) × (length out.old ≡ most_coerced) }
    ensures { ReadEnd t.now (doc_of s.now rows.now n) op task s1.now (ending_of result out.new) }
{
    let r = text_documents::variables_text(s1, rows1);
    match r {
        Ok(c) => {
            let n1 = c.rows as usize;
            if n1 <= FEW_ROWS {
                return coerce_in::<FEW_ROWS>(
                    t, book, s, rows, n, past, op, task, s1, rows1, n1, out,
                );
            }
            coerce_in::<ROWS>(t, book, s, rows, n, past, op, task, s1, rows1, n1, out)
        }
        Err(why) => Err(NotCoerced::BadText(why)),
    }
}

// The same with rows of its own.
fn read_text(
    t: &[u8],
    book: &[u32],
    s: &[u8],
    rows: &[u32],
    n: usize,
    past: &mut [u32],
    op: usize,
    task: Task,
    s1: &[u8],
    out: &mut [u8],
) -> Result<usize, NotCoerced>
    requires { Stands t.now book.now s.now rows.now n × Serves t.now (doc_of s.now rows.now n) task × (length past.old ≡ room_of n) × (length s1.now ≤ most_text) × (length out.old ≡ most_coerced) }
    ensures { ReadEnd t.now (doc_of s.now rows.now n) op task s1.now (ending_of result out.new) }
{
    let mut rows1 = [0u32; ROWS_SIZE];
    read_with(t, book, s, rows, n, past, op, task, s1, &mut rows1, out)
}

// How a call on the opened operation of row op ends, with a list of this length, few for few rows of the document: a field that is not reached is
// told before the variables text is read. The search for the field has a frame of its own, gone when the text is read.
fn end_in<const ROOM: usize>(
    table: &[u8],
    book: &[u32],
    document: &[u8],
    rows: &[u32],
    n: usize,
    op: usize,
    variables: &[u8],
    call: Call,
    out: &mut [u8],
) -> Result<usize, NotCoerced>
    requires { Standing table.now book.now document.now rows.now n op × (length variables.now ≤ most_text) × (length out.old ≡ most_coerced) × (ROOM ≡ room_of n) }
    ensures { OpenEnd table.now (doc_of document.now rows.now n) op call variables.now (ending_of result out.new) }
{
    let mut past = [0u32; ROOM];
    let Call::Arguments(row) = call else {
        let task = Task::OfOperation;
        return read_text(
            table, book, document, rows, n, &mut past, op, task, variables, out,
        );
    };
    let i = row as usize;
    let Some(Span { start, end }) = find_wanted(table, book, document, rows, n, op, i) else {
        return Err(NotCoerced::NotReached);
    };
    let task = Task::OfField { row: i, start, end };
    read_text(
        table, book, document, rows, n, &mut past, op, task, variables, out,
    )
}

// How a call ends, where the book and the rows are lent.
fn end_with(
    table: &[u8],
    book: &mut [u32],
    document: &[u8],
    operation: &[u8],
    rows: &mut [u32],
    variables: &[u8],
    call: Call,
    out: &mut [u8],
) -> Result<usize, NotCoerced>
    requires { ValueShort table.now document.now variables.now × (length book.old ≡ book_size) × (length rows.old ≡ rows_size) × (length out.old ≡ most_coerced) }
    ensures { EndFor call table.now document.now operation.now variables.now (ending_of result out.new) }
{
    let opened = query_opening::open(table, book, document, operation, rows);
    let OpenedOperation { n, row: op } = match opened {
        Ok(o) => o,
        Err(stop) => return Err(NotCoerced::NotOpened(stop)),
    };
    if n <= FEW_ROWS {
        return end_in::<FEW_ROWS>(table, book, document, rows, n, op, variables, call, out);
    }
    end_in::<ROWS>(table, book, document, rows, n, op, variables, call, out)
}

// How a call ends.
fn end_call(
    table: &[u8],
    document: &[u8],
    operation: &[u8],
    variables: &[u8],
    call: Call,
    out: &mut [u8],
) -> Result<usize, NotCoerced>
    requires { ValueShort table.now document.now variables.now × (length out.old ≡ most_coerced) }
    ensures { EndFor call table.now document.now operation.now variables.now (ending_of result out.new) }
{
    let mut book = [0u32; BOOK_SIZE];
    let mut rows = [0u32; ROWS_SIZE];
    end_with(
        table, &mut book, document, operation, &mut rows, variables, call, out,
    )
}

// Tells how a call ends. The value is of its fixed size.
fn tell_call(
    table: &[u8],
    document: &[u8],
    operation: &[u8],
    variables: &[u8],
    call: Call,
    value: &mut [u8],
    report: &mut [u32],
) -> u32
    requires { ValueShort table.now document.now variables.now × (report_size ≤ length report.old) × (length value.old ≡ most_coerced) }
    ensures { Ends (EndFor call table.now document.now operation.now variables.now) report.old value.new report.new result }
{
    let e = end_call(table, document, operation, variables, call, value);
    value_endings::tell(value, report, e)
}

// What a call answers: the sizes are tested, and what comes of it is told.
fn answer(
    table: &[u8],
    document: &[u8],
    operation: &[u8],
    variables: &[u8],
    call: Call,
    value: &mut [u8],
    report: &mut [u32],
) -> u32
    ensures { CoercedBy (EndFor call table.now document.now operation.now variables.now) table.now document.now variables.now value.old report.old value.new report.new result }
{
    if report.len() < REPORT_SIZE {
        return REFUSE_BUFFER;
    }
    let s = value_endings::sizes_met(value.len(), document.len(), variables.len(), table.len());
    match s {
        Ok(()) => tell_call(
            table,
            document,
            operation,
            variables,
            call,
            &mut value[..MOST_COERCED],
            report,
        ),
        Err(why) => call_report::tell_refusal(report, why),
    }
}

// What `gw_coerce_variables` answers.
pub fn answer_variables(
    table: &[u8],
    document: &[u8],
    operation: &[u8],
    variables: &[u8],
    value: &mut [u8],
    report: &mut [u32],
) -> u32
    ensures { CoercedVariables table.now document.now operation.now variables.now value.old report.old value.new report.new result }
{
    answer(
        table,
        document,
        operation,
        variables,
        Call::Variables,
        value,
        report,
    )
}

// What `gw_coerce_arguments` answers.
pub fn answer_arguments(
    table: &[u8],
    document: &[u8],
    operation: &[u8],
    variables: &[u8],
    row: u32,
    value: &mut [u8],
    report: &mut [u32],
) -> u32
    ensures { CoercedArguments table.now document.now operation.now variables.now row value.old report.old value.new report.new result }
{
    answer(
        table,
        document,
        operation,
        variables,
        Call::Arguments(row),
        value,
        report,
    )
}
