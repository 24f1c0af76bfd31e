// The walk's inner loop, over the plan's numbers.
#![tactic(auto)]

ghost use Rattle.std.specs.Prelude.{◌≡◌, List, ℕ, ◌≤◌, ◌<◌, length};
ghost use Rattle.paper_plan.specs.Planning.{says};
ghost use Rattle.plan_walk_steps.specs.Numbers.{test_of, is_one, Marks, Ready, Walked};

use paper_plan::{
    MOST_PAIRS, PLAN_STEP_0, PLAN_STEP_0_FIRST, PLAN_STEP_0_SECOND, STEP_IF_MET, STEP_IF_TRUE,
    STEP_LIST, STEP_SIZE, STEP_UNLESS_APPLIES, STEP_UNLESS_TRUE,
};

// what is told of too many pairs
pub const TOO_MANY_PAIRS: usize = MOST_PAIRS + 1;

// Whether a step of kind 1 to 4 leaves.
fn leaves(kind: u32, first: usize, vars: &[u8], fits: &[u8], met: &[u8]) -> bool
    requires { (1 ≤ kind) × (kind ≤ 4) × (kind ≡ 3 → first < 256) × ((kind ≡ 3 → ⊥) → first < 64) × (64 ≤ length vars.now) × (256 ≤ length fits.now) × (64 ≤ length met.now) }
    ensures { (l : List ℕ) → Marks met.now l → result ≡ says (is_one vars.now) (is_one fits.now) (test_of kind first) l }
{
    if kind == STEP_IF_TRUE {
        return vars[first] == 1;
    }
    if kind == STEP_UNLESS_TRUE {
        return vars[first] != 1;
    }
    if kind == STEP_UNLESS_APPLIES {
        return fits[first] != 1;
    }
    met[first] == 1
}

// Walks the steps from `from` up to `end`: marks the fragments met, and appends the pairs listed to the `start` pairs of `out`.
// Returns the number of pairs, or 513 where they are over 512.
pub fn walk_block(
    p: &[u32],
    from: usize,
    end: usize,
    vars: &[u8],
    fits: &[u8],
    met: &mut [u8],
    out: &mut [u32],
    start: usize,
) -> usize
    requires { Ready p.now from end vars.now fits.now met.old out.old start }
    ensures { Walked p.now from end vars.now fits.now met.old out.old start met.new out.new result }
{
    let mut i = from;
    let mut n = start;
    while i < end {
        let kind = p[PLAN_STEP_0 + STEP_SIZE * i];
        let first = p[PLAN_STEP_0_FIRST + STEP_SIZE * i];
        let second = p[PLAN_STEP_0_SECOND + STEP_SIZE * i];
        if kind == STEP_LIST {
            if n == MOST_PAIRS {
                return TOO_MANY_PAIRS;
            }
            out[2 * n] = first;
            out[2 * n + 1] = second;
            n += 1;
            i += 1;
            continue;
        }
        if leaves(kind, first as usize, vars, fits, met) {
            i = second as usize;
            continue;
        }
        if kind == STEP_IF_MET {
            met[first as usize] = 1;
            i += 1;
            continue;
        }
        i += 1;
    }
    n
}
