// Is a field or an argument of a table right and within the sizes? In one walk, and a yes is sure: after a no it may still be.
#![tactic(auto)]

ghost use Rattle.std.specs.Prelude.{◌≡◌, true, ℕ, suc, ◌+◌};
ghost use Rattle.std.proofs.Math.Seq.{slice};
ghost use Rattle.paper_table.specs.TableNumbers.{tag_field, tag_argument};
ghost use Rattle.table_fields.specs.Fields.{Bounds};
ghost use Rattle.table_framing_quick_types.specs.Fine.{Fine, FewWrappers, TypedTo};

use paper::MOST_WRAPPERS;
use paper_table::{MOST_ARGUMENTS, TAG_ARGUMENT, TAG_NAME, TAG_REFERENCE};
use table_fields::{is_name, read_field, read_reference};
use table_rooms::wrapper_over;

// Is this part a type reference's text with no wrapper over? Where few bytes stand beside its name, none need be counted.
fn is_usual_reference(t: &[u8], start: usize, end: usize) -> bool
    requires { Bounds t.now start end }
    ensures { result ≡ true → FewWrappers start (slice start end t.now) }
{
    let Some(r) = read_reference(t, start, end) else {
        return false;
    };
    if r.start - start + (end - r.end) <= MOST_WRAPPERS as usize {
        return true;
    }
    wrapper_over(t, start, end).is_ok()
}

// Where the name and the type end that a part begins with; none if it begins otherwise.
fn typed_end(t: &[u8], start: usize, end: usize) -> Option<usize>
    requires { Bounds t.now start end }
    ensures { TypedTo t.now start end result }
{
    let f = read_field(t, start, end)?;
    if f.tag != TAG_NAME {
        return None;
    }
    if !is_name(t, f.start, f.end) {
        return None;
    }
    let g = read_field(t, f.end, end)?;
    if g.tag != TAG_REFERENCE {
        return None;
    }
    if !is_usual_reference(t, g.start, g.end) {
        return None;
    }
    Some(g.end)
}

// The argument whose tag stands at `at` and whose content ends at `end`.
pub fn is_usual_argument(t: &[u8], at: usize, end: usize) -> bool
    requires { Bounds t.now (at + 3) end }
    ensures { result ≡ true → (d : ℕ) → Fine (suc (suc d)) at tag_argument (slice (at + 3) end t.now) }
{
    let Some(stop) = typed_end(t, at + 3, end) else {
        return false;
    };
    stop == end
}

// The field whose tag stands at `at` and whose content ends at `end`.
pub fn is_usual_field(t: &[u8], at: usize, end: usize) -> bool
    requires { Bounds t.now (at + 3) end }
    ensures { result ≡ true → (d : ℕ) → Fine (suc (suc (suc d))) at tag_field (slice (at + 3) end t.now) }
{
    let Some(stop) = typed_end(t, at + 3, end) else {
        return false;
    };
    let mut left = MOST_ARGUMENTS;
    let mut i = stop;
    while i < end {
        if left == 0 {
            return false;
        }
        let Some(f) = read_field(t, i, end) else {
            return false;
        };
        if f.tag != TAG_ARGUMENT {
            return false;
        }
        if !is_usual_argument(t, i, f.end) {
            return false;
        }
        left -= 1;
        i = f.end;
    }
    true
}
