// Calls `gw_check` on each case of the file `stdin`, and compares the answer, the report and the rows with the case's. Writes a line a case. The
// last four cases are wrong on purpose. `tests/vectors/pack.py` makes `stdin` and `stdout` of `tests/vectors/check.jsonl`; crate `vectors` tells the
// form of a case.
#![tactic(auto)]

use paper::REFUSE_OVER_LENGTH;
use vectors::{
    HEAD_DOCUMENT, HEAD_ROWS, HEAD_SIZE, HEAD_TABLE, MOST_CASES, REPORT_LENT, ROWS_LENT, STALE,
};

// Case n, in lent buffers
fn compare(
    n: u64,
    head: &[u8],
    table: &[u8],
    document: &[u8],
    want: &[u8],
    rows: &mut [u32],
    report: &mut [u32],
) {
    let answer = gateway::check::gw_check(table, document, rows, report);
    if report.len() < 2 {
        return;
    }
    let mut same = vectors::report_same(report, head, answer);
    if !vectors::rows_same(rows, want, answer == REFUSE_OVER_LENGTH) {
        same = false;
    }
    vectors::tell(n, answer, report[1], same);
}

// Case n, in buffers of its own
fn call(n: u64, head: &[u8], table: &[u8], document: &[u8], want: &[u8]) {
    let mut rows = [STALE; ROWS_LENT];
    let mut report = [STALE; REPORT_LENT];
    compare(n, head, table, document, want, &mut rows, &mut report);
}

// Reads case n and runs it, or answers that there is none
fn run_case(n: u64) -> bool {
    let mut head = [0u8; HEAD_SIZE];
    if !vectors::read_head(&mut head) {
        return false;
    }
    let mut table = io::large_buffer();
    let t = vectors::read_some(&mut table, vectors::number(&head, HEAD_TABLE) as usize);
    let mut document = io::large_buffer();
    let d = vectors::read_some(
        &mut document,
        vectors::number(&head, HEAD_DOCUMENT) as usize,
    );
    let mut want = io::large_buffer();
    let w = vectors::read_some(&mut want, vectors::number(&head, HEAD_ROWS) as usize);
    call(n, &head, &table[..t], &document[..d], &want[..w]);
    true
}

fn main() {
    let mut n = 1;
    while n < MOST_CASES {
        if !run_case(n) {
            return;
        }
        n += 1;
    }
}
