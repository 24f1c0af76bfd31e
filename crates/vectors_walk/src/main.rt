// Calls `gw_walk` on each case of the file `stdin`, and compares the answer, the report and the pairs with the case's. Writes a line a case. The
// last four cases are wrong on purpose. `tests/vectors/pack.py` makes `stdin` and `stdout` of `tests/vectors/walk.jsonl`; crate `vectors` tells the
// form of a case. Here its second part is what is asked: how many numbers of the plan are not 0, how many blocks and how many variables (two bytes each), the object's
// record (four bytes); then these numbers of the plan, each with its place before it (two bytes and four), the blocks (four bytes each), the variables (a byte each).
#![tactic(auto)]

ghost use Rattle.std.specs.Prelude.{◌≤◌};

use paper::REFUSE_OVER_LENGTH;
use paper_plan::PAIRS_SIZE;
use vectors::{HEAD_DOCUMENT, HEAD_ROWS, HEAD_SIZE, HEAD_TABLE, MOST_CASES, REPORT_LENT, STALE};

// where the counts and the object's record stand in what is asked, and how many bytes these are
const ASKED_NUMBERS: usize = 0;

const ASKED_BLOCKS: usize = 2;

const ASKED_VARIABLES: usize = 4;

const ASKED_OBJECT: usize = 6;

const ASKED_HEAD: usize = 10;

// the bytes of a number of the plan with its place, and of a block
const ENTRY_SIZE: usize = 6;

const LONG_SIZE: usize = 4;

// plan and pairs are lent with four numbers more than their fixed size; more blocks than any case has
const PLAN_LENT: usize = 14342;

const PAIRS_LENT: usize = 1028;

const MOST_BLOCKS: usize = 128;

// A number by its four bytes, the low one first
fn long_word(a: u8, b: u8, c: u8, d: u8) -> u32 {
    (a as u32) + 256 * (b as u32) + 65536 * (c as u32) + 16777216 * (d as u32)
}

// The number of four bytes at a place, or 0 behind the end
fn long_number(bytes: &[u8], at: usize) -> u32 {
    if bytes.len() <= at {
        return 0;
    }
    if bytes.len() - at < LONG_SIZE {
        return 0;
    }
    long_word(bytes[at], bytes[at + 1], bytes[at + 2], bytes[at + 3])
}

// A count of what is asked; none is over 65,535
fn count(asked: &[u8], at: usize) -> usize
    ensures { result ≤ 65535 }
{
    let n = vectors::number(asked, at);
    if 65535 < n {
        return 0;
    }
    n as usize
}

// Sets the plan's numbers that are not 0
fn fill_plan(asked: &[u8], plan: &mut [u32]) {
    for i in 0..count(asked, ASKED_NUMBERS) {
        let at = ASKED_HEAD + ENTRY_SIZE * i;
        vectors::put(
            plan,
            vectors::number(asked, at) as usize,
            long_number(asked, at + 2),
        );
    }
}

// Sets the blocks, which stand from a place on
fn fill_blocks(asked: &[u8], from: usize, blocks: &mut [u32])
    requires { from ≤ 1000000 }
{
    for i in 0..count(asked, ASKED_BLOCKS) {
        vectors::put(blocks, i, long_number(asked, from + LONG_SIZE * i));
    }
}

// What number i of the pairs must be: refusal 2 leaves them
fn pair_expected(want: &[u8], i: usize, kept: bool) -> u32 {
    if kept {
        return STALE;
    }
    if PAIRS_SIZE <= i {
        return STALE;
    }
    vectors::number(want, 2 * i)
}

// Whether the pairs are the case's and then zeros, and nothing beyond them is written
fn pairs_same(pairs: &[u32], want: &[u8], kept: bool) -> bool {
    if pairs.len() < PAIRS_LENT {
        return false;
    }
    for i in 0..PAIRS_LENT {
        if pairs[i] != pair_expected(want, i, kept) {
            return false;
        }
    }
    true
}

// Case n, with its plan and blocks, in lent buffers
fn compare(
    n: u64,
    head: &[u8],
    table: &[u8],
    plan: &[u32],
    object: u32,
    blocks: &[u32],
    variables: &[u8],
    want: &[u8],
    pairs: &mut [u32],
    report: &mut [u32],
) {
    let answer = gateway::walk::gw_walk(table, plan, object, blocks, variables, pairs, report);
    if report.len() < 2 {
        return;
    }
    let mut same = vectors::report_same(report, head, answer);
    if !pairs_same(pairs, want, answer == REFUSE_OVER_LENGTH) {
        same = false;
    }
    vectors::tell(n, answer, report[1], same);
}

// Case n, with its plan and blocks, in buffers of its own
fn call(
    n: u64,
    head: &[u8],
    table: &[u8],
    plan: &[u32],
    object: u32,
    blocks: &[u32],
    variables: &[u8],
    want: &[u8],
) {
    let mut pairs = [STALE; PAIRS_LENT];
    let mut report = [STALE; REPORT_LENT];
    compare(
        n,
        head,
        table,
        plan,
        object,
        blocks,
        variables,
        want,
        &mut pairs,
        &mut report,
    );
}

// Case n, with what is asked in parts: its blocks stand from one place on, its variables from another
fn ask(
    n: u64,
    head: &[u8],
    table: &[u8],
    asked: &[u8],
    want: &[u8],
    plan: &mut [u32],
    blocks: &mut [u32],
) {
    fill_plan(asked, plan);
    let from = ASKED_HEAD + ENTRY_SIZE * count(asked, ASKED_NUMBERS);
    fill_blocks(asked, from, blocks);
    let b = count(asked, ASKED_BLOCKS);
    if blocks.len() < b {
        return;
    }
    let start = from + LONG_SIZE * b;
    let end = start + count(asked, ASKED_VARIABLES);
    if asked.len() < end {
        return;
    }
    let object = long_number(asked, ASKED_OBJECT);
    call(
        n,
        head,
        table,
        plan,
        object,
        &blocks[..b],
        &asked[start..end],
        want,
    );
}

// Case n, with a plan and blocks of its own
fn make(n: u64, head: &[u8], table: &[u8], asked: &[u8], want: &[u8]) {
    let mut plan = [0u32; PLAN_LENT];
    let mut blocks = [0u32; MOST_BLOCKS];
    ask(n, head, table, asked, want, &mut plan, &mut blocks);
}

// Reads case n and runs it, or answers that there is none
fn run_case(n: u64) -> bool {
    let mut head = [0u8; HEAD_SIZE];
    if !vectors::read_head(&mut head) {
        return false;
    }
    let mut table = io::large_buffer();
    let t = vectors::read_some(&mut table, vectors::number(&head, HEAD_TABLE) as usize);
    let mut asked = io::large_buffer();
    let a = vectors::read_some(&mut asked, vectors::number(&head, HEAD_DOCUMENT) as usize);
    let mut want = io::large_buffer();
    let w = vectors::read_some(&mut want, vectors::number(&head, HEAD_ROWS) as usize);
    make(n, &head, &table[..t], &asked[..a], &want[..w]);
    true
}

fn main() {
    let mut n = 1;
    while n < MOST_CASES {
        if !run_case(n) {
            return;
        }
        n += 1;
    }
}
