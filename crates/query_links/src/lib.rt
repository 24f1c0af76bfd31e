// Links between rows, made once for a document: so that what stands below a row, or has a kind, is found without passing over the others.
#![tactic(auto)]

ghost use Rattle.std.specs.Prelude.{◌≡◌, ◌≤◌, ◌<◌, length, get_or, set, replicate};
ghost use Rattle.paper.specs.Numbers.{most_rows};
ghost use Rattle.query_rows.specs.Rowed.{rows_in, Rowed, Sized, room_of};
ghost use Rattle.query_links.specs.Links.{firsts_size, kinds_size, Family, Kinds};

use query_rows::{kind_of, parent_of};

// The sizes of scratch for a document's rows: how many rows there may be; up to how many there are few, for which less is cleared;
// how many firsts are linked, of a row or of none; how many kinds are.
pub const ROWS: usize = 2048;

pub const FEW_ROWS: usize = 256;

pub const FIRSTS: usize = 2049;

pub const KINDS: usize = 32;

fn wide(x: u16) -> usize
    ensures { result ≡ x }
{
    x as usize
}

// The first of a chain, or the next after a row.
pub fn link_of(links: &[u16], i: usize) -> usize
    requires { i < length links.now }
    ensures { result ≡ get_or links.now i 0 }
{
    wide(links[i])
}

// Ends every chain: n stands for no row.
pub fn clear(first: &mut [u16], n: usize)
    requires { n ≤ most_rows }
    ensures { first.new ≡ replicate (length first.old) n }
{
    first.fill(n as u16);
}

// Puts row j in front of the chain p.
pub fn put_first(first: &mut [u16], next: &mut [u16], p: usize, j: usize)
    requires { (p < length first.old) × (j < length next.old) × (length next.old ≤ most_rows) }
    ensures { (first.new ≡ set first.old p j) × (next.new ≡ set next.old j (get_or first.old p 0)) }
{
    next[j] = first[p];
    first[p] = j as u16;
}

// Links the rows right below each row.
pub fn families(s: &[u8], rows: &[u32], n: usize, first: &mut [u16], next: &mut [u16])
    requires { Rowed s.now rows.now n × (length first.old ≡ firsts_size) × (length next.old ≡ room_of n) }
    ensures { Family (rows_in rows.now n) first.new next.new }
{
    clear(first, n);
    for j in (0..n).rev() {
        let p = parent_of(rows, n, j) as usize;
        put_first(first, next, p, j);
    }
}

// Links the rows of each kind.
pub fn kinds(rows: &[u32], n: usize, first: &mut [u16], next: &mut [u16])
    requires { Sized rows.now n × (length first.old ≡ kinds_size) × (length next.old ≡ room_of n) }
    ensures { Kinds (rows_in rows.now n) first.new next.new }
{
    clear(first, n);
    for j in (0..n).rev() {
        let k = kind_of(rows, n, j) as usize;
        if k < first.len() {
            put_first(first, next, k, j);
        }
    }
}
