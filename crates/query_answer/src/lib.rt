// Judges a document by a type table: the table, then the text, then the rules; and the whole answer to `gw_check`.
#![tactic(auto)]

ghost use Rattle.std.specs.Prelude.{◌≡◌, length};
ghost use Rattle.paper.specs.Numbers.{rows_size};
ghost use Rattle.paper_table.specs.Judging.{judge};
ghost use Rattle.paper_table.specs.declared.TableAnswer.TheVariants.{Accepted};
ghost use Rattle.table_book.specs.Book.{book_size};
ghost use Rattle.table_types.specs.Booked.{Booked};
ghost use Rattle.paper_query.specs.DocumentCalls.{Lent, Short, CheckedDocument};

use paper::{REFUSE_BUFFER, REPORT_SIZE, ROWS_SIZE};
use paper_table::TableAnswer;
use table_book::BOOK_SIZE;

// Judges a document by an accepted table. The rows are of their fixed size.
fn check_document(
    table: &[u8],
    book: &[u32],
    document: &[u8],
    rows: &mut [u32],
    report: &mut [u32],
) -> u32
    requires { Lent rows.old report.old × Short table.now document.now × (length rows.old ≡ rows_size) × (judge table.now ≡ Accepted) × Booked table.now book.now }
    ensures { CheckedDocument table.now document.now rows.old report.old rows.new report.new result }
{
    let r = text_answer::parse(document, rows);
    match r {
        Ok(c) => {
            let n = c.rows;
            let q = query_judge::first_break(table, book, document, rows, n as usize);
            call_endings::tell_judged(q, n, rows, report)
        }
        Err(why) => call_report::tell_refusal(report, why),
    }
}

// Judges a table, and by it a document. The rows are of their fixed size; the book is scratch.
fn check_with(
    table: &[u8],
    book: &mut [u32],
    document: &[u8],
    rows: &mut [u32],
    report: &mut [u32],
) -> u32
    requires { Lent rows.old report.old × Short table.now document.now × (length rows.old ≡ rows_size) × (length book.old ≡ book_size) }
    ensures { CheckedDocument table.now document.now rows.old report.old rows.new report.new result }
{
    let a = table_answer::judge_with(table, book);
    let TableAnswer::Accepted = a else {
        call_buffers::clear(rows, 0);
        return call_report::tell_table(report, a);
    };
    check_document(table, book, document, rows, report)
}

// Judges a table, and by it a document, with a book of its own. The rows are of their fixed size.
fn check(table: &[u8], document: &[u8], rows: &mut [u32], report: &mut [u32]) -> u32
    requires { Lent rows.old report.old × Short table.now document.now × (length rows.old ≡ rows_size) }
    ensures { CheckedDocument table.now document.now rows.old report.old rows.new report.new result }
{
    let mut book = [0u32; BOOK_SIZE];
    check_with(table, &mut book, document, rows, report)
}

// What `gw_check` answers: the sizes are tested, then the document is judged.
pub fn answer(table: &[u8], document: &[u8], rows: &mut [u32], report: &mut [u32]) -> u32
    ensures { CheckedDocument table.now document.now rows.old report.old rows.new report.new result }
{
    if report.len() < REPORT_SIZE {
        return REFUSE_BUFFER;
    }
    let s = call_buffers::sizes_met(rows.len(), document.len(), table.len());
    match s {
        Ok(()) => check(table, document, &mut rows[..ROWS_SIZE], report),
        Err(why) => call_report::tell_refusal(report, why),
    }
}
