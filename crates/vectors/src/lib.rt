// What the programs that run the vectors share: reading a case from standard input, comparing report and rows, telling a line.
// `tests/vectors/pack.py` writes the cases. A case is its head, its table, its document and the rows that the call must write, as far as it has
// them. All numbers are of two bytes, the low one first: in the head the lengths of the three in bytes, and the eight numbers of the report.
#![tactic(auto)]

ghost use Rattle.io.specs.Counts.{IsPrefixLen};

use paper::{REPORT_SIZE, ROWS_SIZE};

// the standard input and output
const STDIN_FILENO: i32 = 0;

const STDOUT_FILENO: i32 = 1;

// more cases than any file has
pub const MOST_CASES: u64 = 1000;

pub const HEAD_SIZE: usize = 22;

// where the lengths and the report stand in the head
pub const HEAD_TABLE: usize = 0;

pub const HEAD_DOCUMENT: usize = 2;

pub const HEAD_ROWS: usize = 4;

const HEAD_REPORT: usize = 6;

// every buffer holds it before the call; each is lent with four numbers more than its fixed size
pub const STALE: u32 = 70000;

pub const REPORT_LENT: usize = 12;

pub const ROWS_LENT: usize = 14340;

// A number by its two bytes
fn word(low: u8, high: u8) -> u32 {
    (low as u32) + 256 * (high as u32)
}

// The number at a place, or 0 behind the end
pub fn number(bytes: &[u8], at: usize) -> u32 {
    if bytes.len() <= at {
        return 0;
    }
    if bytes.len() - at < 2 {
        return 0;
    }
    word(bytes[at], bytes[at + 1])
}

// Sets a number of a list, where there is one
pub fn put(list: &mut [u32], at: usize, x: u32) {
    if at < list.len() {
        list[at] = x;
    }
}

// What number i of the report must be
fn report_expected(head: &[u8], i: usize) -> u32 {
    if REPORT_SIZE <= i {
        return STALE;
    }
    number(head, HEAD_REPORT + 2 * i)
}

// Whether the report is the case's, with the answer first, and nothing beyond it is written
pub fn report_same(report: &[u32], head: &[u8], answer: u32) -> bool {
    if report.len() < REPORT_LENT {
        return false;
    }
    if answer != report_expected(head, 0) {
        return false;
    }
    for i in 0..REPORT_LENT {
        if report[i] != report_expected(head, i) {
            return false;
        }
    }
    true
}

// What number i of the rows must be: refusal 2 leaves them
fn row_expected(want: &[u8], i: usize, kept: bool) -> u32 {
    if kept {
        return STALE;
    }
    if ROWS_SIZE <= i {
        return STALE;
    }
    number(want, 2 * i)
}

// Whether the rows are the case's and then zeros, and nothing beyond them is written
pub fn rows_same(rows: &[u32], want: &[u8], kept: bool) -> bool {
    if rows.len() < ROWS_LENT {
        return false;
    }
    for i in 0..ROWS_LENT {
        if rows[i] != row_expected(want, i, kept) {
            return false;
        }
    }
    true
}

// Writes a case's line: its number, the answer, the number that the report shows beside it, and whether all was as the case says
pub fn tell(n: u64, answer: u32, shown: u32, same: bool) {
    io::print_decimal(STDOUT_FILENO, n);
    io::write_all(STDOUT_FILENO, b" ");
    io::print_decimal(STDOUT_FILENO, answer as u64);
    io::write_all(STDOUT_FILENO, b" ");
    io::print_decimal(STDOUT_FILENO, shown as u64);
    if same {
        io::write_all(STDOUT_FILENO, b" same\n");
    } else {
        io::write_all(STDOUT_FILENO, b" OTHER\n");
    }
}

// Reads a head, or answers that there is none
pub fn read_head(head: &mut [u8]) -> bool {
    io::read_full(STDIN_FILENO, head) == HEAD_SIZE
}

// Reads n bytes to the start of a buffer, and answers how many there were
pub fn read_some(buf: &mut [u8], n: usize) -> usize
    ensures { IsPrefixLen result buf.new }
{
    if buf.len() < n {
        return 0;
    }
    io::read_full(STDIN_FILENO, &mut buf[..n])
}
