// What a call tells in its report: the number of its answer, what that shows, and zeros.
#![tactic(auto)]

ghost use Rattle.std.specs.Prelude.{◌≡◌, [], ◌∷◌, ◌≤◌, length};
ghost use Rattle.paper.specs.Numbers.{report_size};
ghost use Rattle.paper.specs.Refusals.{number_of, shown_of, shown_in_text};
ghost use Rattle.paper.specs.Calls.{filled, tells};
ghost use Rattle.paper_table.specs.Judging.{table_number};
ghost use Rattle.paper_table.specs.TableCalls.{tells_table};
ghost use Rattle.call_report.specs.Telling.{first_of, of_text};

use paper::{
    ACCEPTED, REFUSE_BUFFER, REFUSE_NO_GOING, REFUSE_NO_TOKEN, REFUSE_OVER_LENGTH, REFUSE_TOO_DEEP,
    REFUSE_TOO_MANY, REFUSE_TOO_MANY_ROWS, Refusal,
};
use paper_table::{REFUSE_FRAMING, REFUSE_SCHEMA, TableAnswer};

// A refusal's number.
fn number_of(r: Refusal) -> u32
    ensures { result ≡ number_of r }
{
    match r {
        Refusal::Buffer => REFUSE_BUFFER,
        Refusal::OverLength(_) => REFUSE_OVER_LENGTH,
        Refusal::NoToken(_) => REFUSE_NO_TOKEN,
        Refusal::NoGoing(_) => REFUSE_NO_GOING,
        Refusal::TooDeep(_) => REFUSE_TOO_DEEP,
        Refusal::TooManyRows(_) => REFUSE_TOO_MANY_ROWS,
        Refusal::TooMany(_) => REFUSE_TOO_MANY,
    }
}

// What a refusal shows, or 0.
fn shown_of(r: Refusal) -> u32
    ensures { result ≡ first_of (shown_of r) }
{
    match r {
        Refusal::Buffer => 0,
        Refusal::OverLength(input) => input,
        Refusal::NoToken(at) => at,
        Refusal::NoGoing(at) => at,
        Refusal::TooDeep(at) => at,
        Refusal::TooManyRows(at) => at,
        Refusal::TooMany(at) => at,
    }
}

// Does a refusal show the number of its text? 3 to 6 do.
fn is_of_text(r: Refusal) -> bool
    ensures { result ≡ of_text r }
{
    match r {
        Refusal::Buffer => false,
        Refusal::OverLength(_) => false,
        Refusal::NoToken(_) => true,
        Refusal::NoGoing(_) => true,
        Refusal::TooDeep(_) => true,
        Refusal::TooManyRows(_) => true,
        Refusal::TooMany(_) => false,
    }
}

// The number of the answer to a table.
fn table_number_of(a: TableAnswer) -> u32
    ensures { result ≡ table_number a }
{
    match a {
        TableAnswer::Accepted => ACCEPTED,
        TableAnswer::Framing(_) => REFUSE_FRAMING,
        TableAnswer::TooMany(_) => REFUSE_TOO_MANY,
        TableAnswer::Breaks { .. } => REFUSE_SCHEMA,
    }
}

// Writes the report: a number, the five that it shows at most, and zeros.
pub fn tell_five(report: &mut [u32], number: u32, a: u32, b: u32, c: u32, d: u32, e: u32)
    requires { report_size ≤ length report.old }
    ensures { report.new ≡ filled report_size (number ∷ a ∷ b ∷ c ∷ d ∷ e ∷ []) report.old }
{
    report[0] = number;
    report[1] = a;
    report[2] = b;
    report[3] = c;
    report[4] = d;
    report[5] = e;
    report[6] = 0;
    report[7] = 0;
}

// Writes the report: a number, the one that it shows, and zeros.
pub fn tell(report: &mut [u32], number: u32, shown: u32)
    requires { report_size ≤ length report.old }
    ensures { report.new ≡ filled report_size (number ∷ shown ∷ []) report.old }
{
    tell_five(report, number, shown, 0, 0, 0, 0);
}

// Tells a refusal, and answers its number.
pub fn tell_refusal(report: &mut [u32], r: Refusal) -> u32
    requires { report_size ≤ length report.old }
    ensures { (result ≡ number_of r) × (report.new ≡ tells r report.old) }
{
    let number = number_of(r);
    tell(report, number, shown_of(r));
    number
}

// Tells a refusal of the text with this number, and answers its number: 3 to 6 show the text behind the offset.
pub fn tell_in_text(report: &mut [u32], text: u32, r: Refusal) -> u32
    requires { report_size ≤ length report.old }
    ensures { (result ≡ number_of r) × (report.new ≡ filled report_size (number_of r ∷ shown_in_text text r) report.old) }
{
    let number = number_of(r);
    let shown = shown_of(r);
    if is_of_text(r) {
        tell_five(report, number, shown, text, 0, 0, 0);
        return number;
    }
    tell(report, number, shown);
    number
}

// Tells the answer to a table, and answers its number.
pub fn tell_table(report: &mut [u32], a: TableAnswer) -> u32
    requires { report_size ≤ length report.old }
    ensures { (result ≡ table_number a) × (report.new ≡ tells_table a report.old) }
{
    let number = table_number_of(a);
    match a {
        TableAnswer::Accepted => {
            tell(report, number, 0);
            number
        }
        TableAnswer::Framing(at) => {
            tell(report, number, at);
            number
        }
        TableAnswer::TooMany(at) => {
            tell(report, number, at);
            number
        }
        TableAnswer::Breaks {
            definition,
            rule,
            member,
            part,
            argument,
        } => {
            tell_five(report, number, definition, rule, member, part, argument);
            number
        }
    }
}
