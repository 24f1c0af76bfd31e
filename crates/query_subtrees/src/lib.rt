// The row past each row's subtree, found once for a document: so that what stands in a row is scanned without the rest, and its children one by one.
#![tactic(auto)]

ghost use Rattle.std.specs.Prelude.{◌≡◌, ◌+◌, ◌≤◌, ◌<◌, length, get_or};
ghost use Rattle.query_rows.specs.Rowed.{row_in, rows_in, Sized, room_of};
ghost use Rattle.query_subtrees.specs.Past.{leaves, past_of, Pasts, PastsFrom};

use paper::NO_PARENT;
use query_rows::parent_of;

fn wide(x: u32) -> usize
    ensures { result ≡ x }
{
    x as usize
}

// Has row j a parent before row i, or none?
fn leaves_row(rows: &[u32], n: usize, i: usize, j: usize) -> bool
    requires { Sized rows.now n }
    ensures { result ≡ leaves i (row_in rows.now n j) }
{
    let p = wide(parent_of(rows, n, j));
    if p < i {
        return true;
    }
    wide(NO_PARENT) <= p
}

// The row past the subtree of row i, where those of the rows behind it are known.
fn find_past(rows: &[u32], n: usize, past: &[u32], i: usize) -> usize
    requires { Sized rows.now n × PastsFrom (rows_in rows.now n) past.now (i + 1) × (i < n) }
    ensures { (result ≡ past_of (rows_in rows.now n) i) × (result ≤ n) }
{
    let mut j = i + 1;
    while j < n {
        if leaves_row(rows, n, i, j) {
            return j;
        }
        j = wide(past[j]);
    }
    j
}

// Finds the row past each row's subtree, from the last row to the first.
pub fn fill_pasts(rows: &[u32], n: usize, past: &mut [u32])
    requires { Sized rows.now n × (length past.old ≡ room_of n) }
    ensures { Pasts (rows_in rows.now n) past.new }
{
    for i in (0..n).rev() {
        let e = find_past(rows, n, past, i);
        past[i] = e as u32;
    }
}

// The row past the subtree of row i.
pub fn past_of(rows: &[u32], n: usize, past: &[u32], i: usize) -> usize
    requires { Sized rows.now n × Pasts (rows_in rows.now n) past.now × (i < n) }
    ensures { (result ≡ past_of (rows_in rows.now n) i) × (i < result) × (result ≤ n) }
{
    wide(past[i])
}
