// How `gw_plan` begins and ends: whether its buffers and inputs keep to their sizes, and what is told of a plan that was made.
#![tactic(auto)]

ghost use Rattle.std.specs.Prelude.{◌≡◌, suc, ◌≤◌, length};
ghost use Rattle.paper.specs.Numbers.{report_size};
ghost use Rattle.paper_plan.specs.PlanNumbers.{plan_size, most_steps};
ghost use Rattle.plan_endings.specs.Endings.{PlanSized, MadeTold};

use paper::{ACCEPTED, ROWS_SIZE, Refusal};
use paper_plan::{PLAN_BLOCKS, PLAN_SIZE, REFUSE_TOO_MANY_STEPS};
use plan_steps::TOO_MANY_STEPS;

// Ok where the plan's buffer and the inputs keep to their sizes, or Err with the first refusal that they ask for.
pub fn sizes_met(plan: usize, document: usize, table: usize) -> Result<(), Refusal>
    ensures { PlanSized plan document table result }
{
    if plan < PLAN_SIZE {
        return Err(Refusal::Buffer);
    }
    call_buffers::sizes_met(ROWS_SIZE, document, table)
}

// Tells the counts of a plan that was made with this many steps; or that they are too many, which leaves no plan.
pub fn tell_made(plan: &mut [u32], report: &mut [u32], steps: usize) -> u32
    requires { (length plan.old ≡ plan_size) × (report_size ≤ length report.old) × (steps ≤ suc most_steps) }
    ensures { MadeTold steps plan.old plan.new report.old report.new result }
{
    if steps == TOO_MANY_STEPS {
        call_buffers::clear(plan, 0);
        call_report::tell(report, REFUSE_TOO_MANY_STEPS, 0);
        return REFUSE_TOO_MANY_STEPS;
    }
    call_report::tell_five(report, ACCEPTED, plan[PLAN_BLOCKS], steps as u32, 0, 0, 0);
    ACCEPTED
}
