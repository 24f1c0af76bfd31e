// Opens an operation: judges a table, reads a document and judges it by the table, and finds the operation that a name means.
#![tactic(auto)]

ghost use Rattle.std.specs.Prelude.{◌≡◌, ◌∷◌, ◌≤◌, length};
ghost use Rattle.paper.specs.Numbers.{rows_size, report_size, kind_operation};
ghost use Rattle.paper.specs.Calls.{filled};
ghost use Rattle.paper_table.specs.Judging.{judge};
ghost use Rattle.paper_table.specs.declared.TableAnswer.TheVariants.{Accepted};
ghost use Rattle.paper_query.specs.Constructs.{is};
ghost use Rattle.paper_query.specs.DocumentCalls.{Short};
ghost use Rattle.table_book.specs.Book.{book_size};
ghost use Rattle.table_types.specs.Booked.{Booked};
ghost use Rattle.query_rows.specs.Rowed.{row_in, rows_in, doc_of, Rowed, Sized};
ghost use Rattle.query_rows.proofs.ReadRows.{Taken};
ghost use Rattle.query_links.specs.Links.{next_with};
ghost use Rattle.query_siblings.specs.Alike.{kind_called};
ghost use Rattle.query_rule_3.specs.Called.{first_called};
ghost use Rattle.paper.specs.Language.{Document};
ghost use Rattle.paper_query.specs.Opening.{only_one, operation_meant};
ghost use Rattle.paper_query.specs.Constructs.{numbers_where};
ghost use Rattle.query_opening.specs.Opens.{told, stop_number, stop_shown, Opens};

use paper::{ACCEPTED, KIND_OPERATION, Refusal};
use paper_query::{QueryAnswer, REFUSE_NO_OPERATION, REFUSE_QUERY};
use paper_table::TableAnswer;
use query_rows::{is_called, kind_of};

// An opened operation: the count of its document's rows, and its own row.
#[derive(Clone, Copy)]
pub struct OpenedOperation {
    pub n: usize,
    pub row: usize,
}

// What stops an opening: the table's refusal or the text's, a rule that a row of the document breaks, or a name that means no operation.
#[derive(Clone, Copy)]
pub enum NotOpened {
    BadTable(TableAnswer),
    BadText(Refusal),
    Broken { row: u32, rule: u32 },
    NoOperation,
}

// The first operation from row `from` on; n if there is none.
fn next_operation(rows: &[u32], n: usize, from: usize) -> usize
    requires { Sized rows.now n × (from ≤ n) }
    ensures { result ≡ next_with (is kind_operation) (rows_in rows.now n) from }
{
    for i in from..n {
        if kind_of(rows, n, i) == KIND_OPERATION {
            return i;
        }
    }
    n
}

// Is row i an operation of this name?
fn is_operation_called(s: &[u8], rows: &[u32], n: usize, i: usize, name: &[u8]) -> bool
    requires { Rowed s.now rows.now n }
    ensures { result ≡ kind_called (doc_of s.now rows.now n) kind_operation name.now (row_in rows.now n i) }
{
    if kind_of(rows, n, i) != KIND_OPERATION {
        return false;
    }
    is_called(s, rows, n, i, name, 0, name.len())
}

// The first operation of this name; n if there is none.
fn first_named(s: &[u8], rows: &[u32], n: usize, name: &[u8]) -> usize
    requires { Rowed s.now rows.now n }
    ensures { result ≡ first_called (doc_of s.now rows.now n) kind_operation name.now }
{
    for i in 0..n {
        if is_operation_called(s, rows, n, i, name) {
            return i;
        }
    }
    n
}

// The row of the only operation; None: there is none, or more than one.
fn only_operation(s: &[u8], rows: &[u32], n: usize) -> Option<usize>
    requires { Rowed s.now rows.now n }
    ensures { result ≡ told (only_one (numbers_where (is kind_operation) (doc_of s.now rows.now n))) }
{
    let i = next_operation(rows, n, 0);
    if n <= i {
        return None;
    }
    if next_operation(rows, n, i + 1) < n {
        return None;
    }
    Some(i)
}

// The row of the operation that a name means, the empty name the only one; None: the name means no operation.
pub fn operation_meant(s: &[u8], rows: &[u32], n: usize, name: &[u8]) -> Option<usize>
    requires { Rowed s.now rows.now n }
    ensures { result ≡ told (operation_meant (doc_of s.now rows.now n) name.now) }
{
    if name.len() == 0 {
        return only_operation(s, rows, n);
    }
    let i = first_named(s, rows, n, name);
    if i < n {
        return Some(i);
    }
    None
}

// Judges a document of n rows by an accepted table, and finds the operation. Err: a broken rule, or no operation of that name.
fn open_read(
    table: &[u8],
    book: &[u32],
    document: &[u8],
    name: &[u8],
    rows: &[u32],
    n: usize,
) -> Result<OpenedOperation, NotOpened>
    requires { Short table.now document.now × (judge table.now ≡ Accepted) × Booked table.now book.now × Taken Document document.now rows.now n }
    ensures { Opens table.now document.now name.now rows.now book.now result }
{
    let q = query_judge::first_break(table, book, document, rows, n);
    if let QueryAnswer::Breaks { row, rule } = q {
        return Err(NotOpened::Broken {
            row: row,
            rule: rule,
        });
    }
    let row = operation_meant(document, rows, n, name).ok_or(NotOpened::NoOperation)?;
    Ok(OpenedOperation { n: n, row: row })
}

// Reads a document into the rows, and opens it by an accepted table. Err: what is wrong with the text, or with the document read.
fn open_text(
    table: &[u8],
    book: &[u32],
    document: &[u8],
    name: &[u8],
    rows: &mut [u32],
) -> Result<OpenedOperation, NotOpened>
    requires { Short table.now document.now × (judge table.now ≡ Accepted) × Booked table.now book.now × (length rows.old ≡ rows_size) }
    ensures { Opens table.now document.now name.now rows.new book.now result }
{
    let r = text_documents::document(document, rows);
    match r {
        Ok(c) => {
            let n = c.rows as usize;
            open_read(table, book, document, name, rows, n)
        }
        Err(why) => Err(NotOpened::BadText(why)),
    }
}

// Opens the operation that a name means. Err: what stops that, in the table, the text, the document or the name.
// The rows and the book are lent: where it opens, they are the document's and the table's.
pub fn open(
    table: &[u8],
    book: &mut [u32],
    document: &[u8],
    name: &[u8],
    rows: &mut [u32],
) -> Result<OpenedOperation, NotOpened>
    requires { Short table.now document.now × (length book.old ≡ book_size) × (length rows.old ≡ rows_size) }
    ensures { Opens table.now document.now name.now rows.new book.new result }
{
    let a = table_answer::judge_with(table, book);
    let TableAnswer::Accepted = a else {
        return Err(NotOpened::BadTable(a));
    };
    open_text(table, book, document, name, rows)
}

// Tells what came of an opening, and answers its number.
pub fn tell_stop(report: &mut [u32], opened: Result<OpenedOperation, NotOpened>) -> u32
    requires { report_size ≤ length report.old }
    ensures { (result ≡ stop_number opened) × (report.new ≡ filled report_size (stop_number opened ∷ stop_shown opened) report.old) }
{
    let Err(stop) = opened else {
        call_report::tell(report, ACCEPTED, 0);
        return ACCEPTED;
    };
    match stop {
        NotOpened::BadTable(a) => call_report::tell_table(report, a),
        NotOpened::BadText(r) => call_report::tell_refusal(report, r),
        NotOpened::Broken { row, rule } => {
            call_report::tell_five(report, REFUSE_QUERY, row, rule, 0, 0, 0);
            REFUSE_QUERY
        }
        NotOpened::NoOperation => {
            call_report::tell(report, REFUSE_NO_OPERATION, 0);
            REFUSE_NO_OPERATION
        }
    }
}
