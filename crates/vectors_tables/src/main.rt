// Calls `gw_check_table` on each case of the file `stdin`, and compares the answer and the report with the case's. Writes a line a case. The last
// two cases are wrong on purpose. `tests/vectors/pack.py` makes `stdin` and `stdout` of `tests/vectors/tables.jsonl`; crate `vectors` tells the form
// of a case, which has a table alone.
#![tactic(auto)]

use vectors::{HEAD_SIZE, HEAD_TABLE, MOST_CASES, REPORT_LENT, STALE};

// Case n, in a lent report
fn compare(n: u64, head: &[u8], table: &[u8], report: &mut [u32]) {
    let answer = gateway::check_table::gw_check_table(table, report);
    if report.len() < 2 {
        return;
    }
    let same = vectors::report_same(report, head, answer);
    vectors::tell(n, answer, report[1], same);
}

// Case n, in a report of its own
fn call(n: u64, head: &[u8], table: &[u8]) {
    let mut report = [STALE; REPORT_LENT];
    compare(n, head, table, &mut report);
}

// Reads case n and runs it, or answers that there is none
fn run_case(n: u64) -> bool {
    let mut head = [0u8; HEAD_SIZE];
    if !vectors::read_head(&mut head) {
        return false;
    }
    let mut table = io::large_buffer();
    let t = vectors::read_some(&mut table, vectors::number(&head, HEAD_TABLE) as usize);
    call(n, &head, &table[..t]);
    true
}

fn main() {
    let mut n = 1;
    while n < MOST_CASES {
        if !run_case(n) {
            return;
        }
        n += 1;
    }
}
