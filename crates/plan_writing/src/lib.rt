// Writes a plan: its blocks, one after the other, by the table of the document's rows; then its counts.
#![tactic(auto)]

ghost use Rattle.std.specs.Prelude.{◌≡◌, ◌∷◌, ◌≤◌, length, get_or, take, replicate};
ghost use Rattle.paper_plan.specs.PlanNumbers.{plan_size};
ghost use Rattle.plan_writing.specs.Writing.{Tables, Holders, Writes, Blocks};

use paper_plan::{PLAN_BLOCKS, PLAN_FIRSTS, PLAN_STEPS};
use plan_steps::{TOO_MANY_STEPS, expand};

// The row of block b: the operation's, then those of the list.
fn block_row(o: u16, out: &[u16], b: usize) -> u16
    requires { b ≤ length out.now }
    ensures { result ≡ get_or (o ∷ out.now) b 0 }
{
    if b == 0 {
        return o;
    }
    out[b - 1]
}

// Writes the blocks of row o and of the m rows of the list into a plan of zeros, and returns the count of steps; or 4,097 where there are more than 4,096.
// What `expand` keeps of open rows is scratch.
fn write_blocks(
    cells: &[u16],
    n: usize,
    first: &[u16],
    next: &[u16],
    o: u16,
    out: &[u16],
    m: usize,
    opened: &mut [u16],
    begun: &mut [u16],
    plan: &mut [u32],
) -> usize
    requires { Tables cells.now n first.now next.now × Holders o out.now m × (plan.old ≡ replicate plan_size 0) × (n ≤ length opened.old) × (n ≤ length begun.old) }
    ensures { Blocks cells.now n (o ∷ take m out.now) plan.new result }
{
    let mut at = 0;
    for b in 0..=m {
        let holder = block_row(o, out, b);
        plan[PLAN_FIRSTS + b] = at as u32;
        at = expand(
            cells,
            n,
            first,
            next,
            holder,
            n + 1,
            at,
            opened,
            begun,
            plan,
        );
        if at == TOO_MANY_STEPS {
            return at;
        }
    }
    at
}

// Writes the plan, and returns the count of its steps; or 4,097 where there are more than 4,096.
pub fn write_plan(
    cells: &[u16],
    n: usize,
    first: &[u16],
    next: &[u16],
    o: u16,
    out: &[u16],
    m: usize,
    opened: &mut [u16],
    begun: &mut [u16],
    plan: &mut [u32],
) -> usize
    requires { Tables cells.now n first.now next.now × Holders o out.now m × (plan.old ≡ replicate plan_size 0) × (n ≤ length opened.old) × (n ≤ length begun.old) }
    ensures { Writes cells.now n (o ∷ take m out.now) plan.new result }
{
    let steps = write_blocks(cells, n, first, next, o, out, m, opened, begun, plan);
    if steps == TOO_MANY_STEPS {
        return steps;
    }
    plan[PLAN_BLOCKS] = (m + 1) as u32;
    plan[PLAN_STEPS] = steps as u32;
    steps
}
