// Where spreads lead: the definition of each row, the fragment of each spread, and the spreads of each definition, linked once for a document.
#![tactic(auto)]

ghost use Rattle.std.specs.Prelude.{◌≡◌, ◌≤◌, ◌<◌, length};
ghost use Rattle.paper_query.specs.Rule7Spread.{spread_of_none};
ghost use Rattle.query_rows.specs.Rowed.{doc_of, rows_in, Rowed, Sized, room_of};
ghost use Rattle.query_links.specs.Links.{Kinds};
ghost use Rattle.query_spreads.specs.Owners.{Owner, Owned, OwnedTo};
ghost use Rattle.query_spreads.specs.Spreads.{Targeted, Linked, Spreader};

use paper::{KIND_FRAGMENT, KIND_OPERATION, KIND_SPREAD, NO_PARENT};
use query_rows::{kind_of, parent_of};

// The definition that row i stands in, given those of the rows before it; 2,048 if there is none.
fn owner_of(s: &[u8], rows: &[u32], n: usize, owner: &[u16], i: usize) -> u16
    requires { Rowed s.now rows.now n × OwnedTo (doc_of s.now rows.now n) i owner.now × (i < n) }
    ensures { Owner (doc_of s.now rows.now n) i result }
{
    let kind = kind_of(rows, n, i);
    if kind == KIND_OPERATION {
        return i as u16;
    }
    if kind == KIND_FRAGMENT {
        return i as u16;
    }
    let p = parent_of(rows, n, i) as usize;
    if p < i {
        return owner[p];
    }
    NO_PARENT as u16
}

// Finds the definition of each row.
pub fn owners(s: &[u8], rows: &[u32], n: usize, owner: &mut [u16])
    requires { Rowed s.now rows.now n × (length owner.old ≡ room_of n) }
    ensures { Owned (doc_of s.now rows.now n) owner.new }
{
    for i in 0..n {
        let o = owner_of(s, rows, n, owner, i);
        owner[i] = o;
    }
}

// Finds the fragment that each spread leads to.
pub fn targets(s: &[u8], rows: &[u32], n: usize, firstk: &[u16], nextk: &[u16], target: &mut [u16])
    requires { Rowed s.now rows.now n × Kinds (rows_in rows.now n) firstk.now nextk.now × (length target.old ≡ room_of n) }
    ensures { Targeted (doc_of s.now rows.now n) target.new }
{
    let mut i = query_links::link_of(firstk, KIND_SPREAD as usize);
    while i < n {
        let f = query_rule_3::fragment_named(s, rows, n, firstk, nextk, i);
        target[i] = f as u16;
        i = query_links::link_of(nextk, i);
    }
}

// Rule 7: is row i a spread of no fragment?
pub fn spread_of_none(s: &[u8], rows: &[u32], n: usize, target: &[u16], i: usize) -> bool
    requires { Sized rows.now n × Targeted (doc_of s.now rows.now n) target.now }
    ensures { result ≡ spread_of_none (doc_of s.now rows.now n) i }
{
    if kind_of(rows, n, i) != KIND_SPREAD {
        return false;
    }
    n <= target[i] as usize
}

// The definition that row j spreads a fragment in; 2,048 if it is no spread.
fn spreader(s: &[u8], rows: &[u32], n: usize, owner: &[u16], j: usize) -> usize
    requires { Rowed s.now rows.now n × Owned (doc_of s.now rows.now n) owner.now × (j < n) }
    ensures { Spreader (doc_of s.now rows.now n) j result }
{
    if kind_of(rows, n, j) == KIND_SPREAD {
        return owner[j] as usize;
    }
    NO_PARENT as usize
}

// Links the spreads of each definition, in a list of firsts that has one for each row or more.
pub fn spreads(s: &[u8], rows: &[u32], n: usize, owner: &[u16], first: &mut [u16], next: &mut [u16])
    requires { Rowed s.now rows.now n × Owned (doc_of s.now rows.now n) owner.now × (n ≤ length first.old) × (length next.old ≡ room_of n) }
    ensures { Linked (doc_of s.now rows.now n) first.new next.new }
{
    query_links::clear(first, n);
    for j in (0..n).rev() {
        let a = spreader(s, rows, n, owner, j);
        if a < n {
            query_links::put_first(first, next, a, j);
        }
    }
}
