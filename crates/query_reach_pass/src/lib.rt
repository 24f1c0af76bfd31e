// One pass of a search for what a definition reaches: over the spreads of a definition that the search met.
#![tactic(auto)]

ghost use Rattle.query_rows.specs.Rowed.{doc_of};
ghost use Rattle.query_spreads.specs.Spreads.{Graph};
ghost use Rattle.query_reach_pass.specs.Marks.{Noted, Room, Search, Passed};

// Marks the fragment of row f and puts it on the stack, if there is one and it is not marked yet; the stack's new height.
fn note(n: usize, mark: &mut [u16], stack: &mut [u16], top: usize, stamp: u16, f: usize) -> usize
    requires { Room n stamp mark.old stack.old top }
    ensures { Noted n stamp f mark.old stack.old top mark.new stack.new result }
{
    if n <= f {
        return top;
    }
    if mark[f] == stamp {
        return top;
    }
    mark[f] = stamp;
    stack[top] = f as u16;
    top + 1
}

// Passes over the spreads of the definition of row g, in the search from row a; the stack's new height.
pub fn pass(
    s: &[u8],
    rows: &[u32],
    n: usize,
    target: &[u16],
    first: &[u16],
    next: &[u16],
    mark: &mut [u16],
    stack: &mut [u16],
    top: usize,
    a: usize,
    g: usize,
) -> usize
    requires { Graph (doc_of s.now rows.now n) target.now first.now next.now × Search (doc_of s.now rows.now n) a mark.old stack.old top g 0 }
    ensures { Passed (doc_of s.now rows.now n) a mark.old stack.old top g mark.new stack.new result }
{
    let stamp = a as u16 + 1;
    let mut height = top;
    let mut j = first[g] as usize;
    while j < n {
        height = note(n, mark, stack, height, stamp, target[j] as usize);
        j = next[j] as usize;
    }
    height
}
