// Calls `gw_plan` on each case of the file `stdin`, and compares the answer, the report and the plan with the case's. Writes a line a case. The
// last four cases are wrong on purpose. `tests/vectors/pack.py` makes `stdin` and `stdout` of `tests/vectors/plan.jsonl`; crate `vectors` tells the
// form of a case. Here the length of the operation's name (two bytes) stands behind the head, the name behind the document, and in the place of the
// rows those numbers of the plan that are not 0, each with its place before it (two bytes each).
#![tactic(auto)]

use paper::REFUSE_OVER_LENGTH;
use paper_plan::PLAN_SIZE;
use vectors::{HEAD_DOCUMENT, HEAD_ROWS, HEAD_SIZE, HEAD_TABLE, MOST_CASES, REPORT_LENT, STALE};

// the length of the operation's name
const NAME_SIZE: usize = 2;

// the bytes of a number of the plan with its place
const ENTRY_SIZE: usize = 4;

// the plan is lent with four numbers more than its fixed size
const PLAN_LENT: usize = 14342;

// Sets the numbers that the plan must have and that are not 0
fn fill_wanted(entries: &[u8], wanted: &mut [u32]) {
    for i in 0..entries.len() / ENTRY_SIZE {
        let at = ENTRY_SIZE * i;
        vectors::put(
            wanted,
            vectors::number(entries, at) as usize,
            vectors::number(entries, at + 2),
        );
    }
}

// What number i of the plan must be: refusal 2 leaves it
fn number_expected(wanted: &[u32], i: usize, kept: bool) -> u32 {
    if kept {
        return STALE;
    }
    if PLAN_SIZE <= i {
        return STALE;
    }
    if wanted.len() <= i {
        return 0;
    }
    wanted[i]
}

// Whether the plan is the case's, and nothing beyond it is written
fn plan_same(plan: &[u32], wanted: &[u32], kept: bool) -> bool {
    if plan.len() < PLAN_LENT {
        return false;
    }
    for i in 0..PLAN_LENT {
        if plan[i] != number_expected(wanted, i, kept) {
            return false;
        }
    }
    true
}

// Case n, in lent buffers
fn compare(
    n: u64,
    head: &[u8],
    table: &[u8],
    document: &[u8],
    operation: &[u8],
    wanted: &[u32],
    plan: &mut [u32],
    report: &mut [u32],
) {
    let answer = gateway::plan::gw_plan(table, document, operation, plan, report);
    if report.len() < 2 {
        return;
    }
    let mut same = vectors::report_same(report, head, answer);
    if !plan_same(plan, wanted, answer == REFUSE_OVER_LENGTH) {
        same = false;
    }
    vectors::tell(n, answer, report[1], same);
}

// Case n, in buffers of its own
fn call(n: u64, head: &[u8], table: &[u8], document: &[u8], operation: &[u8], wanted: &[u32]) {
    let mut plan = [STALE; PLAN_LENT];
    let mut report = [STALE; REPORT_LENT];
    compare(
        n,
        head,
        table,
        document,
        operation,
        wanted,
        &mut plan,
        &mut report,
    );
}

// Case n, with what its plan must be in full
fn expect(n: u64, head: &[u8], table: &[u8], document: &[u8], operation: &[u8], entries: &[u8]) {
    let mut wanted = [0u32; PLAN_LENT];
    fill_wanted(entries, &mut wanted);
    call(n, head, table, document, operation, &wanted);
}

// Reads the texts of case n and runs it
fn run_texts(n: u64, head: &[u8], name_size: usize) {
    let mut table = io::large_buffer();
    let t = vectors::read_some(&mut table, vectors::number(head, HEAD_TABLE) as usize);
    let mut document = io::large_buffer();
    let d = vectors::read_some(&mut document, vectors::number(head, HEAD_DOCUMENT) as usize);
    let mut operation = io::large_buffer();
    let o = vectors::read_some(&mut operation, name_size);
    let mut entries = io::large_buffer();
    let e = vectors::read_some(&mut entries, vectors::number(head, HEAD_ROWS) as usize);
    expect(
        n,
        head,
        &table[..t],
        &document[..d],
        &operation[..o],
        &entries[..e],
    );
}

// Reads case n and runs it, or answers that there is none
fn run_case(n: u64) -> bool {
    let mut head = [0u8; HEAD_SIZE];
    if !vectors::read_head(&mut head) {
        return false;
    }
    let mut name = [0u8; NAME_SIZE];
    if vectors::read_some(&mut name, NAME_SIZE) != NAME_SIZE {
        return false;
    }
    run_texts(n, &head, vectors::number(&name, 0) as usize);
    true
}

fn main() {
    let mut n = 1;
    while n < MOST_CASES {
        if !run_case(n) {
            return;
        }
        n += 1;
    }
}
