// Calls `gw_coerce_variables` or `gw_coerce_arguments` on each case of the file `stdin`, and compares the answer, the report and the value with the
// case's. Writes a line a case. The last four cases are wrong on purpose. `tests/vectors/pack.py` makes `stdin` and `stdout` of
// `tests/vectors/coerce_vars.jsonl` and `coerce_args.jsonl`. A case is as crate `vectors` tells, with the value in the place of the rows; behind its
// head stand the lengths of the operation's name and of the variables text, 1 for the call that coerces arguments, and its row (four bytes, the low
// one first); behind its document the name and the variables text.
#![tactic(auto)]

use paper::REFUSE_OVER_LENGTH;
use paper_values::MOST_COERCED;
use vectors::{HEAD_DOCUMENT, HEAD_ROWS, HEAD_SIZE, HEAD_TABLE, REPORT_LENT, STALE};

// more cases than the file has
const MOST_CASES: u64 = 2000;

// what stands behind the head, and where
const MORE_SIZE: usize = 10;

const MORE_OPERATION: usize = 0;

const MORE_VARIABLES: usize = 2;

const MORE_CALL: usize = 4;

const MORE_ROW: usize = 6;

const CALL_ARGUMENTS: u32 = 1;

// the value's buffer holds it before the call; it is lent with four bytes more than its fixed size
const STALE_BYTE: u8 = 165;

const VALUE_LENT: usize = 8196;

// A row by its four bytes
fn row_by(low: u8, second: u8, third: u8, high: u8) -> u32 {
    (low as u32) + 256 * (second as u32) + 65536 * (third as u32) + 16777216 * (high as u32)
}

// The row of the field whose arguments are coerced
fn row_of(more: &[u8]) -> u32 {
    if more.len() < MORE_SIZE {
        return 0;
    }
    row_by(
        more[MORE_ROW],
        more[MORE_ROW + 1],
        more[MORE_ROW + 2],
        more[MORE_ROW + 3],
    )
}

// What byte i of the value must be: refusal 2 leaves it
fn byte_expected(want: &[u8], i: usize, kept: bool) -> u8 {
    if kept {
        return STALE_BYTE;
    }
    if MOST_COERCED <= i {
        return STALE_BYTE;
    }
    if want.len() <= i {
        return 0;
    }
    want[i]
}

// Whether the value is the case's and then zeros, and nothing beyond it is written
fn value_same(value: &[u8], want: &[u8], kept: bool) -> bool {
    if value.len() < VALUE_LENT {
        return false;
    }
    for i in 0..VALUE_LENT {
        if value[i] != byte_expected(want, i, kept) {
            return false;
        }
    }
    true
}

// The answer of the call that the case is about
fn answer(
    more: &[u8],
    table: &[u8],
    document: &[u8],
    operation: &[u8],
    variables: &[u8],
    value: &mut [u8],
    report: &mut [u32],
) -> u32 {
    if vectors::number(more, MORE_CALL) == CALL_ARGUMENTS {
        let row = row_of(more);
        return gateway::coerce_arguments::gw_coerce_arguments(
            table, document, operation, variables, row, value, report,
        );
    }
    gateway::coerce_variables::gw_coerce_variables(
        table, document, operation, variables, value, report,
    )
}

// Case n, in lent buffers
fn compare(
    n: u64,
    head: &[u8],
    more: &[u8],
    table: &[u8],
    document: &[u8],
    operation: &[u8],
    variables: &[u8],
    want: &[u8],
    value: &mut [u8],
    report: &mut [u32],
) {
    let answer = answer(more, table, document, operation, variables, value, report);
    if report.len() < 2 {
        return;
    }
    let mut same = vectors::report_same(report, head, answer);
    if !value_same(value, want, answer == REFUSE_OVER_LENGTH) {
        same = false;
    }
    vectors::tell(n, answer, report[1], same);
}

// Case n, in buffers of its own
fn call(
    n: u64,
    head: &[u8],
    more: &[u8],
    table: &[u8],
    document: &[u8],
    operation: &[u8],
    variables: &[u8],
    want: &[u8],
) {
    let mut value = [STALE_BYTE; VALUE_LENT];
    let mut report = [STALE; REPORT_LENT];
    compare(
        n,
        head,
        more,
        table,
        document,
        operation,
        variables,
        want,
        &mut value,
        &mut report,
    );
}

// Reads the texts of case n and runs it
fn run_texts(n: u64, head: &[u8], more: &[u8]) {
    let mut table = io::large_buffer();
    let t = vectors::read_some(&mut table, vectors::number(head, HEAD_TABLE) as usize);
    let mut document = io::large_buffer();
    let d = vectors::read_some(&mut document, vectors::number(head, HEAD_DOCUMENT) as usize);
    let mut operation = io::large_buffer();
    let o = vectors::read_some(
        &mut operation,
        vectors::number(more, MORE_OPERATION) as usize,
    );
    let mut variables = io::large_buffer();
    let v = vectors::read_some(
        &mut variables,
        vectors::number(more, MORE_VARIABLES) as usize,
    );
    let mut want = io::large_buffer();
    let w = vectors::read_some(&mut want, vectors::number(head, HEAD_ROWS) as usize);
    call(
        n,
        head,
        more,
        &table[..t],
        &document[..d],
        &operation[..o],
        &variables[..v],
        &want[..w],
    );
}

// Reads case n and runs it, or answers that there is none
fn run_case(n: u64) -> bool {
    let mut head = [0u8; HEAD_SIZE];
    if !vectors::read_head(&mut head) {
        return false;
    }
    let mut more = [0u8; MORE_SIZE];
    if vectors::read_some(&mut more, MORE_SIZE) != MORE_SIZE {
        return false;
    }
    run_texts(n, &head, &more);
    true
}

fn main() {
    let mut n = 1;
    while n < MOST_CASES {
        if !run_case(n) {
            return;
        }
        n += 1;
    }
}
