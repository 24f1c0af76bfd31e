// The wrappers of a type: how many are lists, and those without Non-Null outside; and the heads of lists of one, each in the other.
#![tactic(auto)]

ghost use Rattle.std.specs.Prelude.{◌≡◌, List, ℕ, ◌+◌, ◌*◌, ◌%◌, ◌≤◌, ◌<◌, Ok};
ghost use Rattle.paper_table.specs.References.{Ref};
ghost use Rattle.table_fields.specs.Wrappers.{pack_of, pack_limit};
ghost use Rattle.paper_values.specs.Values.{Tree, Out};
ghost use Rattle.value_writing.specs.Writing.{place_of};
ghost use Rattle.value_kinds.specs.Dues.{Told};
ghost use Rattle.value_ones.specs.Ones.{Inside, lists_of, nullable_of, ones};

use paper::{WRAP_BASE, WRAP_NON_NULL};
use paper_values::TAG_LIST;
use value_writing::{close, place};

// How many of these wrappers are lists.
pub fn lists_in(wrappers: u32) -> usize
    requires { wrappers < pack_limit }
    ensures { (result < pack_limit) × ((r : Ref) → pack_of r ≡ wrappers → result ≡ lists_of r) }
{
    let mut m = 0;
    let mut w = wrappers;
    while 0 < w {
        m += (w % 2) as usize;
        w = w / WRAP_BASE;
    }
    m
}

// These wrappers without Non-Null outside.
pub fn nullable(wrappers: u32) -> u32
    ensures { (result ≤ wrappers) × (result % 4 ≡ 2 → ⊥) × ((r : Ref) → pack_of r ≡ wrappers → pack_of (nullable_of r) ≡ result) }
{
    let mut rest = wrappers;
    while rest % WRAP_BASE == WRAP_NON_NULL {
        rest = rest / WRAP_BASE;
    }
    rest
}

// Puts the heads of m lists of one, each in the other, before what was written behind their bytes from `from` on, up to `at`.
pub fn close_ones(out: &mut [u8], limit: usize, from: usize, m: usize, at: usize) -> usize
    requires { Inside limit from m at out.old }
    ensures { (text : ℕ) (o : Out Tree) (p : List ℕ) → Told text limit o (place_of limit (from + 3 * m)) p out.old (Ok at) → Told text limit (ones m o) from p out.new (Ok result) }
{
    let mut e = at;
    for j in (0..m).rev() {
        let head = place(limit, from, 3 * j);
        e = close(out, limit, head, TAG_LIST, e);
    }
    e
}
