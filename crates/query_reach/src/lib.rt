// Which fragments a definition reaches: by a search over the spreads of each definition.
#![tactic(auto)]

ghost use Rattle.std.specs.Prelude.{◌≡◌, ◌+◌, ◌≤◌, ◌<◌, length};
ghost use Rattle.paper.specs.Numbers.{most_rows};
ghost use Rattle.paper_query.specs.Reaching.{Reaches};
ghost use Rattle.paper_query.specs.Rule8Circle.{ReachesItself};
ghost use Rattle.query_rows.specs.Rowed.{doc_of, Sized, Decides, room_of};
ghost use Rattle.query_spreads.specs.Owners.{Defines, Owned};
ghost use Rattle.query_spreads.specs.Spreads.{Graph};
ghost use Rattle.query_reach_pass.specs.Marks.{Stamped, Reached};

use paper::KIND_FRAGMENT;
use query_reach_pass::pass;
use query_rows::kind_of;

// Marks the fragments that the definition of row a reaches with a + 1. Marks of earlier searches, from rows before a, may stand.
pub fn reach(
    s: &[u8],
    rows: &[u32],
    n: usize,
    target: &[u16],
    first: &[u16],
    next: &[u16],
    mark: &mut [u16],
    stack: &mut [u16],
    a: usize,
)
    requires { Graph (doc_of s.now rows.now n) target.now first.now next.now × Defines (doc_of s.now rows.now n) a × Stamped (doc_of s.now rows.now n) a mark.old × (length stack.old ≡ room_of n) }
    ensures { Reached (doc_of s.now rows.now n) a mark.new }
{
    let mut top = pass(s, rows, n, target, first, next, mark, stack, 0, a, a);
    while 0 < top {
        top -= 1;
        let g = stack[top] as usize;
        top = pass(s, rows, n, target, first, next, mark, stack, top, a, g);
    }
}

// Is row i a fragment that reaches itself?
pub fn circles(
    s: &[u8],
    rows: &[u32],
    n: usize,
    target: &[u16],
    first: &[u16],
    next: &[u16],
    mark: &mut [u16],
    stack: &mut [u16],
    i: usize,
) -> bool
    requires { Sized rows.now n × Graph (doc_of s.now rows.now n) target.now first.now next.now × Stamped (doc_of s.now rows.now n) i mark.old × (length stack.old ≡ room_of n) }
    ensures { Decides result (ReachesItself (doc_of s.now rows.now n) i) × Stamped (doc_of s.now rows.now n) (i + 1) mark.new }
{
    if kind_of(rows, n, i) != KIND_FRAGMENT {
        return false;
    }
    reach(s, rows, n, target, first, next, mark, stack, i);
    mark[i] == i as u16 + 1
}

// Does the definition of row o reach row i, by the marks of the search from it?
pub fn reaches(
    s: &[u8],
    rows: &[u32],
    n: usize,
    owner: &[u16],
    mark: &[u16],
    o: usize,
    i: usize,
) -> bool
    requires { Owned (doc_of s.now rows.now n) owner.now × Reached (doc_of s.now rows.now n) o mark.now × Defines (doc_of s.now rows.now n) o × (n ≤ most_rows) × (i < n) }
    ensures { Decides result (Reaches (doc_of s.now rows.now n) o i) }
{
    let w = owner[i] as usize;
    if w == o {
        return true;
    }
    if n <= w {
        return false;
    }
    mark[w] == o as u16 + 1
}
