// The walk over blocks with one set of marks, and the pairs grouped by key.
#![tactic(auto)]

ghost use Rattle.std.specs.Prelude.{◌≡◌, List, [], ◌++◌, ◌+◌, ◌*◌, ◌-◌, ◌≤◌, ◌<◌, length, get_or};
ghost use Rattle.paper_plan.specs.Collecting.{Pair};
ghost use Rattle.paper_plan.specs.PlanNumbers.{blocks_in};
ghost use Rattle.plan_walk_steps.specs.Numbers.{Marks, Listed};
ghost use Rattle.plan_walk_steps.proofs.TwoPass.{by_key};
ghost use Rattle.plan_walk_blocks.specs.Answers.{Walkable, Room, Given, Walks, pairs_from, key_in, before, Emitted, Grouped, Answered};

use paper::MOST_FRAGMENTS;
use paper_plan::{PAIRS_SIZE, PLAN_FIRSTS};
use plan_walk_formed::{end_of, number_at};
use plan_walk_steps::{TOO_MANY_PAIRS, walk_block};

// how many fragments can be marked as met
const MARKS: usize = MOST_FRAGMENTS as usize;

// Walks block b.
fn walk_one(
    p: &[u32],
    b: usize,
    vars: &[u8],
    fits: &[u8],
    met: &mut [u8],
    out: &mut [u32],
    n: usize,
) -> usize
    requires { Walkable p.now × (b < blocks_in p.now) × Room vars.now fits.now met.old out.old × (n ≤ 512) }
    ensures { Walks p.now b vars.now fits.now met.old out.old n met.new out.new result }
{
    walk_block(
        p,
        number_at(p, PLAN_FIRSTS + b),
        end_of(p, b),
        vars,
        fits,
        met,
        out,
        n,
    )
}

// Walks the blocks as given, from no marks and no pairs: the number of pairs, or 513 where they are over 512.
// Never inlined: within `gw_walk` what was inlined before the loop decided how fast it ran (docs/LOOK-BACK.md, d1).
#[inline(never)]
pub fn walk_blocks(
    p: &[u32],
    blocks: &[u32],
    vars: &[u8],
    fits: &[u8],
    met: &mut [u8],
    out: &mut [u32],
) -> usize
    requires { Walkable p.now × ((j : _) → j < length blocks.now → get_or blocks.now j 0 < blocks_in p.now) × Room vars.now fits.now met.old out.old × Marks met.old [] }
    ensures { Given p.now blocks.now vars.now fits.now met.new out.new result }
{
    let mut n = 0;
    for j in 0..blocks.len() {
        let b = number_at(blocks, j);
        let m = walk_one(p, b, vars, fits, met, out, n);
        if m == TOO_MANY_PAIRS {
            return TOO_MANY_PAIRS;
        }
        n = m;
    }
    n
}

// Has one of the first i pairs this key?
fn came_before(found: &[u32], i: usize, key: u32) -> bool
    requires { (2 * i ≤ length found.now) × (i ≤ 512) }
    ensures { result ≡ before found.now i key }
{
    for j in (0..i).rev() {
        if found[2 * j] == key {
            return true;
        }
    }
    false
}

// Appends the pairs of this key, from pair i up to n, to the m pairs of `out`: how many these are then.
fn emit(found: &[u32], i: usize, n: usize, key: u32, out: &mut [u32], m: usize) -> usize
    requires { (2 * n ≤ length found.now) × (i ≤ n) × (n ≤ 512) × (1024 ≤ length out.old) × (m + length (by_key key (pairs_from found.now i (n - i))) ≤ 512) }
    ensures { Emitted found.now i n key out.old m out.new result }
{
    let mut k = m;
    for j in i..n {
        if found[2 * j] != key {
            continue;
        }
        out[2 * k] = key;
        out[2 * k + 1] = found[2 * j + 1];
        k += 1;
    }
    k
}

// Groups n pairs by key into `out`.
pub fn group(found: &[u32], n: usize, out: &mut [u32])
    requires { (2 * n ≤ length found.now) × (n ≤ 512) × (1024 ≤ length out.old) }
    ensures { Grouped found.now n out.new }
{
    let mut m = 0;
    for i in 0..n {
        let key = found[2 * i];
        if came_before(found, i, key) {
            continue;
        }
        m = emit(found, i, n, key, out, m);
    }
}

// The pairs of the blocks as given, grouped by key, and zeros behind them: how many, or 513 where they are over 512.
pub fn answer(p: &[u32], blocks: &[u32], vars: &[u8], fits: &[u8], out: &mut [u32]) -> usize
    requires { Walkable p.now × ((j : _) → j < length blocks.now → get_or blocks.now j 0 < blocks_in p.now) × (64 ≤ length vars.now) × (256 ≤ length fits.now) × (length out.old ≡ 1024) }
    ensures { Answered p.now blocks.now vars.now fits.now out.new result }
{
    let mut met = [0u8; MARKS];
    let mut found = [0u32; PAIRS_SIZE];
    let n = walk_blocks(p, blocks, vars, fits, &mut met, &mut found);
    if n == TOO_MANY_PAIRS {
        call_buffers::clear(out, 0);
        return TOO_MANY_PAIRS;
    }
    group(&found, n, out);
    call_buffers::clear(out, 2 * n);
    n
}
