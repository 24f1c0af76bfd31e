// Judges a type table: its framing, its sizes, its schema rules, in this order; and the whole answer to `gw_check_table`.
#![tactic(auto)]

ghost use Rattle.std.specs.Prelude.{◌≡◌, true, ◌≤◌, length};
ghost use Rattle.std.proofs.Math.Option.{none};
ghost use Rattle.paper_table.specs.TableNumbers.{most_table};
ghost use Rattle.paper_table.specs.House.{framing_offset};
ghost use Rattle.paper_table.specs.TableSizes.{counts_offset};
ghost use Rattle.paper_table.specs.Judging.{judge};
ghost use Rattle.paper_table.specs.TableCalls.{Checked};
ghost use Rattle.table_framing.specs.Framing.{told};
ghost use Rattle.table_rooms.specs.Rooms.{told_over};
ghost use Rattle.table_book.specs.Book.{book_size};
ghost use Rattle.table_possible.specs.Possible.{Blank};
ghost use Rattle.table_answer.specs.Judges.{Judges};

use paper::{REFUSE_BUFFER, REPORT_SIZE, ROWS_SIZE};
use paper_table::TableAnswer;
use table_book::BOOK_SIZE;
use table_framing_quick::is_usual;
use table_possible::BITS_SIZE;

// The schema rules of a table whose framing and sizes are right. Two are scratch: which object can be which type, the book of one definition's
// members.
fn judge_rules(t: &[u8], book: &mut [u32], bits: &mut [u32], listed: &mut [u32]) -> TableAnswer
    requires { (length t.now ≤ most_table) × (framing_offset t.now ≡ none) × (counts_offset t.now ≡ none) × (length book.old ≡ book_size) × Blank bits.old × (length listed.old ≡ book_size) }
    ensures { Judges t.now book.new result }
{
    table_types::fill(t, book);
    table_possible::fill(t, book, bits);
    table_judge::first_break(t, book, bits, listed)
}

// Refusal 7, where it is not known that there is none: Err has its offset.
fn framing_unless(t: &[u8], usual: bool) -> Result<(), u32>
    requires { (length t.now ≤ most_table) × (usual ≡ true → framing_offset t.now ≡ none) }
    ensures { result ≡ told (framing_offset t.now) }
{
    if usual {
        return Ok(());
    }
    table_framing::framing(t)
}

// Refusal 8, where it is not known that there is none: Err has its offset.
fn over_unless(t: &[u8], usual: bool) -> Result<(), u32>
    requires { (length t.now ≤ most_table) × (usual ≡ true → counts_offset t.now ≡ none) }
    ensures { result ≡ told_over (counts_offset t.now) }
{
    if usual {
        return Ok(());
    }
    table_sizes::over(t)
}

// The sizes and the schema rules of a table whose framing is right. The scratch is made at one place, so that it is on the stack once.
fn judge_framed(t: &[u8], book: &mut [u32], usual: bool) -> TableAnswer
    requires { (length t.now ≤ most_table) × (framing_offset t.now ≡ none) × (length book.old ≡ book_size) × (usual ≡ true → counts_offset t.now ≡ none) }
    ensures { Judges t.now book.new result }
{
    if let Err(at) = over_unless(t, usual) {
        return TableAnswer::TooMany(at);
    }
    let mut bits = [0u32; BITS_SIZE];
    let mut listed = [0u32; BOOK_SIZE];
    judge_rules(t, book, &mut bits, &mut listed)
}

// What is said of a table. The book is lent for its definitions, and is the table's where it is accepted. Most tables are known to be right by
// one walk; where that cannot tell, two others find the first offset that is not.
pub fn judge_with(t: &[u8], book: &mut [u32]) -> TableAnswer
    requires { (length t.now ≤ most_table) × (length book.old ≡ book_size) }
    ensures { Judges t.now book.new result }
{
    let usual = is_usual(t);
    match framing_unless(t, usual) {
        Err(at) => TableAnswer::Framing(at),
        Ok(()) => judge_framed(t, book, usual),
    }
}

// What is said of a table, with a book of its own.
pub fn judge_table(t: &[u8]) -> TableAnswer
    requires { length t.now ≤ most_table }
    ensures { result ≡ judge t.now }
{
    let mut book = [0u32; BOOK_SIZE];
    judge_with(t, &mut book)
}

// What `gw_check_table` answers: the sizes are tested, then the table is judged.
pub fn answer(table: &[u8], report: &mut [u32]) -> u32
    ensures { Checked table.now report.old report.new result }
{
    if report.len() < REPORT_SIZE {
        return REFUSE_BUFFER;
    }
    // it has no rows and no document, so these are of a size that is kept to
    let s = call_buffers::sizes_met(ROWS_SIZE, 0, table.len());
    match s {
        Ok(()) => {
            let a = judge_table(table);
            call_report::tell_table(report, a)
        }
        Err(why) => call_report::tell_refusal(report, why),
    }
}
