// How a coercing call begins and ends: whether its buffers and inputs keep to their sizes, and what is told and left of each way to end.
#![tactic(auto)]

ghost use Rattle.std.specs.Prelude.{◌≡◌, ◌∷◌, ◌≤◌, length};
ghost use Rattle.paper.specs.Numbers.{report_size};
ghost use Rattle.paper.specs.Calls.{filled};
ghost use Rattle.paper_values.specs.ValueNumbers.{most_coerced};
ghost use Rattle.call_buffers.specs.Buffers.{cleared};
ghost use Rattle.value_endings.specs.Endings.{Sized, written_of, end_number, end_shown, ending_of, Leaves};

use paper::{ACCEPTED, INPUT_DOCUMENT, INPUT_VARIABLES, MOST_TEXT, Refusal};
use paper_query::REFUSE_NO_OPERATION;
use paper_table::{INPUT_TABLE, MOST_TABLE};
use paper_values::{MOST_COERCED, REFUSE_TOO_LONG, REFUSE_VALUE};
use query_opening::NotOpened;

// Why a coercing call leaves no value: no operation is opened, its field is not reached, the variables text is refused, or a value is.
#[derive(Clone, Copy)]
pub enum NotCoerced {
    NotOpened(NotOpened),
    NotReached,
    BadText(Refusal),
    Refused { text: u32, row: u32, why: u32 },
}

// Ok where a value, a document, a variables text and a table of these lengths keep to their sizes, or Err with the first refusal that they ask for.
pub fn sizes_met(
    value: usize,
    document: usize,
    variables: usize,
    table: usize,
) -> Result<(), Refusal>
    ensures { Sized value document variables table result }
{
    if value < MOST_COERCED {
        return Err(Refusal::Buffer);
    }
    if MOST_TEXT < document {
        return Err(Refusal::OverLength(INPUT_DOCUMENT));
    }
    if MOST_TEXT < variables {
        return Err(Refusal::OverLength(INPUT_VARIABLES));
    }
    if MOST_TABLE < table {
        return Err(Refusal::OverLength(INPUT_TABLE));
    }
    Ok(())
}

// Sets the bytes from place `from` on to 0.
fn clear(value: &mut [u8], from: usize)
    requires { from ≤ length value.old }
    ensures { value.new ≡ cleared from value.old }
{
    value[from..].fill(0);
}

// Up to where a value is written; past its end where there is none.
fn written(e: Result<usize, NotCoerced>) -> usize
    ensures { result ≡ written_of e }
{
    match e {
        Ok(at) => at,
        Err(_) => MOST_COERCED + 1,
    }
}

// Tells a refusal, and answers its number; a value that is not refused is too long here.
fn tell_refused(report: &mut [u32], e: Result<usize, NotCoerced>) -> u32
    requires { report_size ≤ length report.old }
    ensures { (result ≡ end_number e) × (report.new ≡ filled report_size (end_number e ∷ end_shown e) report.old) }
{
    let Err(stop) = e else {
        call_report::tell(report, REFUSE_TOO_LONG, 0);
        return REFUSE_TOO_LONG;
    };
    match stop {
        NotCoerced::NotOpened(o) => query_opening::tell_stop(report, Err(o)),
        NotCoerced::NotReached => {
            call_report::tell(report, REFUSE_NO_OPERATION, 0);
            REFUSE_NO_OPERATION
        }
        NotCoerced::BadText(r) => call_report::tell_in_text(report, INPUT_VARIABLES, r),
        NotCoerced::Refused { text, row, why } => {
            call_report::tell_five(report, REFUSE_VALUE, text, row, why, 0, 0);
            REFUSE_VALUE
        }
    }
}

// Tells how the call ends and answers its number: Ok is a value up to this place, past the output's end where it is too long.
// A refusal leaves no value, and behind one that is told there are zeros.
pub fn tell(value: &mut [u8], report: &mut [u32], e: Result<usize, NotCoerced>) -> u32
    requires { (report_size ≤ length report.old) × (length value.old ≡ most_coerced) }
    ensures { Leaves (ending_of e value.old) value.old report.old value.new report.new result }
{
    let at = written(e);
    if at <= MOST_COERCED {
        clear(value, at);
        call_report::tell(report, ACCEPTED, at as u32);
        return ACCEPTED;
    }
    clear(value, 0);
    tell_refused(report, e)
}
