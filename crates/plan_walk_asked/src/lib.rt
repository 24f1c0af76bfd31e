// May these numbers be walked: is the plan well-formed, with the blocks asked for, and is all else given that a walk asks for?
#![tactic(auto)]

ghost use Rattle.std.specs.Prelude.{◌≡◌, ◌≤◌, length};
ghost use Rattle.paper_table.specs.Types.{table_of, is_object};
ghost use Rattle.paper_query.specs.Enclosing.{definition_at};
ghost use Rattle.table_types.specs.Booked.{Booked};
ghost use Rattle.query_rows.specs.Rowed.{Decides};
ghost use Rattle.paper_plan.specs.PlanNumbers.{plan_size};
ghost use Rattle.paper_plan.specs.WalkCalls.{CanWalk};
ghost use Rattle.plan_walk_asked.specs.Asked.{Known};

use paper_plan::{MOST_WALKED, PLAN_BLOCKS, VARIABLES_SIZE};
use paper_table::TAG_OBJECT;

// Is o the number of an object type's record?
fn is_object(t: &[u8], book: &[u32], o: u32) -> bool
    requires { Booked t.now book.now }
    ensures { result ≡ is_object (definition_at (table_of t.now) o) }
{
    table_types::kind_in(book, o as usize) == TAG_OBJECT as u32
}

// Has the plan all these blocks?
fn all_known(p: &[u32], blocks: &[u32]) -> bool
    requires { plan_size ≤ length p.now }
    ensures { Decides result (Known p.now blocks.now) }
{
    let n = p[PLAN_BLOCKS];
    for b in blocks {
        if n <= *b {
            return false;
        }
    }
    true
}

// Is all given that a walk asks for?
#[tactic(auto, using(crate::proofs::AskedLaws::asked_is, crate::proofs::AskedLaws::not_object))]
pub fn can_walk(
    t: &[u8],
    book: &[u32],
    plan: &[u32],
    object: u32,
    blocks: &[u32],
    variables: &[u8],
) -> bool
    requires { Booked t.now book.now }
    ensures { Decides result (CanWalk (table_of t.now) plan.now object blocks.now variables.now) }
{
    if MOST_WALKED < blocks.len() {
        return false;
    }
    if variables.len() < VARIABLES_SIZE {
        return false;
    }
    if is_object(t, book, object) {
        if plan_walk_formed::is_formed(t, book, plan) {
            return all_known(plan, blocks);
        }
    }
    false
}
