// What a document that was read or judged leaves in the rows and the report.
#![tactic(auto)]

ghost use Rattle.std.specs.Prelude.{◌≡◌, ◌≤◌, length};
ghost use Rattle.paper.specs.Numbers.{report_size};
ghost use Rattle.paper_query.specs.DocumentCalls.{Lent};
ghost use Rattle.call_endings.specs.Endings.{Ended, Told};

use paper::{ACCEPTED, Refusal};
use paper_query::{QueryAnswer, REFUSE_QUERY};
use text_cursor::Cursor;

// Tells what came of reading, Ok with the cursor that counts the rows or Err with the refusal, and answers its number.
pub fn tell_read(r: Result<Cursor, Refusal>, report: &mut [u32]) -> u32
    requires { report_size ≤ length report.old }
    ensures { Told r report.old report.new result }
{
    match r {
        Ok(c) => {
            call_report::tell(report, ACCEPTED, c.rows);
            ACCEPTED
        }
        Err(why) => call_report::tell_refusal(report, why),
    }
}

// Tells what was said of a document with n rows, and answers its number; a broken rule leaves no rows.
pub fn tell_judged(q: QueryAnswer, n: u32, rows: &mut [u32], report: &mut [u32]) -> u32
    requires { Lent rows.old report.old }
    ensures { Ended n q rows.old report.old rows.new report.new result }
{
    match q {
        QueryAnswer::Fits => {
            call_report::tell(report, ACCEPTED, n);
            ACCEPTED
        }
        QueryAnswer::Breaks { row, rule } => {
            call_buffers::clear(rows, 0);
            call_report::tell_five(report, REFUSE_QUERY, row, rule, 0, 0, 0);
            REFUSE_QUERY
        }
    }
}
