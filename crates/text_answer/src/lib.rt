// Reads a document into rows of the fixed size, and leaves nothing else in them; and the whole answer to `gw_parse`.
#![tactic(auto)]

ghost use Rattle.std.specs.Prelude.{◌≡◌, ◌≤◌, length};
ghost use Rattle.paper.specs.Numbers.{most_text, rows_size};
ghost use Rattle.paper.specs.Language.{Document};
ghost use Rattle.paper.specs.Calls.{Parsed};
ghost use Rattle.text_answer.specs.Parsing.{Filled};

use paper::{REFUSE_BUFFER, REPORT_SIZE, ROW_SIZE, ROWS_SIZE, Refusal};
use text_cursor::Cursor;

// Reads a document into rows of the fixed size, and clears what it does not use: Ok with the cursor past it, which counts the rows, or Err with
// the refusal.
pub fn parse(s: &[u8], rows: &mut [u32]) -> Result<Cursor, Refusal>
    requires { (length s.now ≤ most_text) × (length rows.old ≡ rows_size) }
    ensures { Filled Document s.now rows.old rows.new result }
{
    let r = text_documents::document(s, rows);
    match r {
        Ok(c) => {
            let n = c.rows;
            call_buffers::clear(rows, ROW_SIZE * (n as usize));
            r
        }
        Err(_) => {
            call_buffers::clear(rows, 0);
            r
        }
    }
}

// What `gw_parse` answers: the sizes are tested, then the document is read.
pub fn answer(document: &[u8], rows: &mut [u32], report: &mut [u32]) -> u32
    ensures { Parsed document.now rows.old report.old rows.new report.new result }
{
    if report.len() < REPORT_SIZE {
        return REFUSE_BUFFER;
    }
    let s = call_buffers::sizes_met(rows.len(), document.len(), 0);
    match s {
        Ok(()) => {
            let r = parse(document, &mut rows[..ROWS_SIZE]);
            call_endings::tell_read(r, report)
        }
        Err(why) => call_report::tell_refusal(report, why),
    }
}
