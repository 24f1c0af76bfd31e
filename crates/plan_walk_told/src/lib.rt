// Walks a plan by an accepted table: what is asked of a walk, then the pairs, and what is told of them.
#![tactic(auto)]

ghost use Rattle.std.specs.Prelude.{◌≡◌, ◌≤◌, length};
ghost use Rattle.paper.specs.Numbers.{report_size};
ghost use Rattle.paper_table.specs.Types.{table_of};
ghost use Rattle.table_types.specs.Booked.{Booked};
ghost use Rattle.paper_plan.specs.WalkNumbers.{pairs_size};
ghost use Rattle.paper_plan.specs.WalkCalls.{CanWalk, WalkLent, Right, Walked};
ghost use Rattle.plan_walk_told.specs.Walking.{Pairs, Told};

use paper::ACCEPTED;
use paper_plan::{MOST_PAIRS, REFUSE_TOO_MANY_PAIRS, REFUSE_WALK};
use plan_walk_asked::can_walk;
use table_book::ROOM;

// The pairs of a walk for which all is given, and zeros behind them: how many, or one more than the most where they are too many.
fn list_pairs(
    t: &[u8],
    book: &[u32],
    plan: &[u32],
    object: u32,
    blocks: &[u32],
    variables: &[u8],
    pairs: &mut [u32],
) -> usize
    requires { Booked t.now book.now × CanWalk (table_of t.now) plan.now object blocks.now variables.now × (length pairs.old ≡ pairs_size) }
    ensures { Pairs (table_of t.now) plan.now object blocks.now variables.now pairs.new result }
{
    let mut fits = [0u8; ROOM];
    plan_walk_types::fill_fits(t, book, object as usize, &mut fits);
    plan_walk_blocks::answer(plan, blocks, variables, &fits, pairs)
}

// Tells how many pairs there are, or that they are too many.
fn tell_pairs(n: usize, report: &mut [u32]) -> u32
    requires { report_size ≤ length report.old }
    ensures { Told n report.old report.new result }
{
    if MOST_PAIRS < n {
        call_report::tell(report, REFUSE_TOO_MANY_PAIRS, 0);
        return REFUSE_TOO_MANY_PAIRS;
    }
    call_report::tell(report, ACCEPTED, n as u32);
    ACCEPTED
}

// Walks a plan by an accepted table. The pairs are of their fixed size.
pub fn walk_plan(
    t: &[u8],
    book: &[u32],
    plan: &[u32],
    object: u32,
    blocks: &[u32],
    variables: &[u8],
    pairs: &mut [u32],
    report: &mut [u32],
) -> u32
    requires { WalkLent pairs.old report.old × Right t.now × Booked t.now book.now × (length pairs.old ≡ pairs_size) }
    ensures { Walked t.now plan.now object blocks.now variables.now pairs.old report.old pairs.new report.new result }
{
    if can_walk(t, book, plan, object, blocks, variables) {
        let n = list_pairs(t, book, plan, object, blocks, variables, pairs);
        return tell_pairs(n, report);
    }
    call_buffers::clear(pairs, 0);
    call_report::tell(report, REFUSE_WALK, 0);
    REFUSE_WALK
}
