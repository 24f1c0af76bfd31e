// Whether the numbers of a lent plan are well-formed.
#![tactic(auto)]

ghost use Rattle.std.specs.Prelude.{◌≡◌, ◌+◌, ◌≤◌, ◌<◌, length, get_or};
ghost use Rattle.paper_table.specs.Types.{table_of};
ghost use Rattle.table_types.specs.Booked.{Booked};
ghost use Rattle.query_rows.specs.Rowed.{Decides};
ghost use Rattle.paper_plan.specs.PlanNumbers.{plan_size, most_blocks, most_steps, blocks_in, steps_in, first_in, end_in, Formed, WellFormed};
ghost use Rattle.plan_walk_formed.specs.Blocks.{StepsFormed, BlockFormed, Headed, BlocksFormed};

use paper::{MOST_ROWS, MOST_VARIABLES};
use paper_plan::{
    MOST_BLOCKS, MOST_STEPS, PLAN_BLOCKS, PLAN_FIRSTS, PLAN_SIZE, PLAN_STEP_0, PLAN_STEP_0_FIRST,
    PLAN_STEP_0_SECOND, PLAN_STEPS, STEP_LIST, STEP_SIZE, STEP_UNLESS_APPLIES,
};
use table_types::is_composite;

// below these are the numbers of rows and keys, and those of variables and fragments
const ROWS: usize = MOST_ROWS as usize;

const VARIABLES: usize = MOST_VARIABLES as usize;

// where block 1 has its first step
const PLAN_FIRST_1: usize = PLAN_FIRSTS + 1;

fn wide(x: u32) -> usize
    ensures { result ≡ x }
{
    x as usize
}

// A number of the plan.
pub fn number_at(p: &[u32], i: usize) -> usize
    requires { i < length p.now }
    ensures { result ≡ get_or p.now i 0 }
{
    wide(p[i])
}

// Is step i well-formed, in a block that ends at step `end`?
#[tactic(auto, using(crate::proofs::FormedLaws::five_two, crate::proofs::FormedLaws::five_one, crate::proofs::FormedLaws::too_high, crate::proofs::FormedLaws::not_later, crate::proofs::FormedLaws::not_within, crate::proofs::FormedLaws::three_is, crate::proofs::FormedLaws::zero_is, crate::proofs::FormedLaws::other_is))]
fn step_formed(t: &[u8], book: &[u32], p: &[u32], end: usize, i: usize) -> bool
    requires { Booked t.now book.now × (plan_size ≤ length p.now) × (i < most_steps) }
    ensures { Decides result (Formed (table_of t.now) p.now end i) }
{
    let kind = p[PLAN_STEP_0 + STEP_SIZE * i];
    let one = number_at(p, PLAN_STEP_0_FIRST + STEP_SIZE * i);
    let two = number_at(p, PLAN_STEP_0_SECOND + STEP_SIZE * i);
    if kind == STEP_LIST {
        if one < ROWS {
            return two < ROWS;
        }
        return false;
    }
    if STEP_LIST < kind {
        return false;
    }
    if two <= i {
        return false;
    }
    if end < two {
        return false;
    }
    if kind == STEP_UNLESS_APPLIES {
        return is_composite(table_types::kind_in(book, one));
    }
    if kind == 0 {
        return false;
    }
    one < VARIABLES
}

// Is each step from `from` up to `end`?
fn steps_formed(t: &[u8], book: &[u32], p: &[u32], from: usize, end: usize) -> bool
    requires { Booked t.now book.now × (plan_size ≤ length p.now) × (end ≤ most_steps) }
    ensures { Decides result (StepsFormed (table_of t.now) p.now from end) }
{
    for i in from..end {
        if !step_formed(t, book, p, end, i) {
            return false;
        }
    }
    true
}

// Where block b ends.
pub fn end_of(p: &[u32], b: usize) -> usize
    requires { (plan_size ≤ length p.now) × (b < most_blocks) }
    ensures { result ≡ end_in p.now b }
{
    if b + 1 < number_at(p, PLAN_BLOCKS) {
        return number_at(p, PLAN_FIRST_1 + b);
    }
    number_at(p, PLAN_STEPS)
}

// Is block b well-formed?
#[tactic(auto, using(crate::proofs::FormedLaws::block_is))]
fn block_formed(t: &[u8], book: &[u32], p: &[u32], b: usize) -> bool
    requires { Booked t.now book.now × (plan_size ≤ length p.now) × (b < most_blocks) × (steps_in p.now ≤ most_steps) }
    ensures { Decides result (BlockFormed (table_of t.now) p.now b) }
{
    let from = number_at(p, PLAN_FIRSTS + b);
    let end = end_of(p, b);
    if end < from {
        return false;
    }
    if number_at(p, PLAN_STEPS) < end {
        return false;
    }
    steps_formed(t, book, p, from, end)
}

// Is each block?
fn blocks_formed(t: &[u8], book: &[u32], p: &[u32]) -> bool
    requires { Booked t.now book.now × Headed p.now }
    ensures { Decides result (BlocksFormed (table_of t.now) p.now) }
{
    let n = number_at(p, PLAN_BLOCKS);
    for b in 0..n {
        if !block_formed(t, book, p, b) {
            return false;
        }
    }
    true
}

// Is the count of blocks and of steps in its bounds, and the first block at the start?
fn is_headed(p: &[u32]) -> bool
    ensures { Decides result (Headed p.now) }
{
    if p.len() < PLAN_SIZE {
        return false;
    }
    if p[PLAN_BLOCKS] == 0 {
        return false;
    }
    if MOST_BLOCKS < p[PLAN_BLOCKS] {
        return false;
    }
    if MOST_STEPS < p[PLAN_STEPS] {
        return false;
    }
    p[PLAN_FIRSTS] == 0
}

// Is a lent plan well-formed?
// Never inlined: within `gw_walk` what was inlined before the loops decided how fast they ran (docs/LOOK-BACK.md, d1).
#[inline(never)]
pub fn is_formed(t: &[u8], book: &[u32], p: &[u32]) -> bool
    requires { Booked t.now book.now }
    ensures { Decides result (WellFormed (table_of t.now) p.now) }
{
    if is_headed(p) {
        return blocks_formed(t, book, p);
    }
    false
}
