// Is a table's framing right, and is it within the sizes? In one walk, and in one direction only: what is answered with no may be so too.
#![tactic(auto)]

ghost use Rattle.std.specs.Prelude.{◌≡◌, true, ◌+◌, ◌≤◌, length};
ghost use Rattle.std.proofs.Math.Option.{none};
ghost use Rattle.std.proofs.Math.Seq.{slice};
ghost use Rattle.paper_table.specs.TableNumbers.{most_table};
ghost use Rattle.paper_table.specs.House.{a_name, content_of, most_deep, framing_offset};
ghost use Rattle.paper_table.specs.TableSizes.{counts_offset};
ghost use Rattle.table_fields.specs.Fields.{Bounds};
ghost use Rattle.table_framing.specs.Holders.{Holder};
ghost use Rattle.table_framing_quick_types.specs.Fine.{Fine};
ghost use Rattle.table_framing_quick.specs.Usual.{Members};

use paper_table::{
    MOST_IMPLEMENTED, MOST_RECORDS, TAG_ARGUMENT, TAG_ENUM_VALUE, TAG_FIELD, TAG_IMPLEMENTS,
    TAG_MUTATION_ROOT, TAG_NAME, TAG_QUERY_ROOT, TAG_SUBSCRIPTION_ROOT, TAG_UNION_MEMBER,
};
use table_fields::{is_name, read_field};
use table_framing::{
    Holding, content_of, has_tag, in_place, least_after, record_in_place, roots_after,
};
use table_framing_quick_types::{is_usual_argument, is_usual_field};
use table_rooms::{rest_room, room_of};

// Is the content of a field of this tag a name?
fn is_named(k: u8) -> bool
    ensures { result ≡ true → content_of k ≡ a_name }
{
    match k {
        TAG_NAME => true,
        TAG_ENUM_VALUE => true,
        TAG_IMPLEMENTS => true,
        TAG_UNION_MEMBER => true,
        TAG_QUERY_ROOT => true,
        TAG_MUTATION_ROOT => true,
        TAG_SUBSCRIPTION_ROOT => true,
        _ => false,
    }
}

// The field of a record whose tag stands at `at` and whose content ends at `end`. The most frequent come first.
fn is_usual_member(t: &[u8], at: usize, k: u8, end: usize) -> bool
    requires { Bounds t.now (at + 3) end }
    ensures { result ≡ true → Fine 3 at k (slice (at + 3) end t.now) }
{
    if k == TAG_FIELD {
        return is_usual_field(t, at, end);
    }
    if k == TAG_ARGUMENT {
        return is_usual_argument(t, at, end);
    }
    if is_named(k) {
        return is_name(t, at + 3, end);
    }
    false
}

// The fields of a record: in order, and no more than there is room for.
fn are_usual_members(t: &[u8], at: usize, tag: u8, end: usize, first: u8, from: u8, to: u8) -> bool
    requires { Bounds t.now (at + 3) end × Holder tag first first from to }
    ensures { result ≡ true → Members at tag (slice (at + 3) end t.now) }
{
    let mut least = 0;
    let mut names = MOST_IMPLEMENTED;
    let mut rest = rest_room(tag);
    let mut i = at + 3;
    while i < end {
        let Some(f) = read_field(t, i, end) else {
            return false;
        };
        let n = room_of(tag, f.tag);
        if names < n % 2 {
            return false;
        }
        if rest < n / 2 {
            return false;
        }
        if !in_place(first, from, to, least, f.tag) {
            return false;
        }
        if !is_usual_member(t, i, f.tag, f.end) {
            return false;
        }
        least = least_after(f.tag);
        names -= n % 2;
        rest -= n / 2;
        i = f.end;
    }
    true
}

// A record. One field is due in each, and it comes first, so that the search for it ends there.
fn is_usual_record(t: &[u8], at: usize, tag: u8, end: usize) -> bool
    requires { Bounds t.now (at + 3) end }
    ensures { result ≡ true → Fine most_deep at tag (slice (at + 3) end t.now) }
{
    let Holding::Fields {
        first,
        second,
        from,
        to,
    } = content_of(tag)
    else {
        return false;
    };
    if first != second {
        return false;
    }
    if !has_tag(t, at + 3, end, first) {
        return false;
    }
    are_usual_members(t, at, tag, end, first, from, to)
}

// No refusal 7 and no refusal 8.
pub fn is_usual(t: &[u8]) -> bool
    requires { length t.now ≤ most_table }
    ensures { result ≡ true → (framing_offset t.now ≡ none) × (counts_offset t.now ≡ none) }
{
    let mut roots = true;
    let mut left = MOST_RECORDS;
    let mut i = 0;
    while i < t.len() {
        let Some(f) = read_field(t, i, t.len()) else {
            return false;
        };
        if left == 0 {
            return false;
        }
        if !record_in_place(roots, f.tag) {
            return false;
        }
        if !is_usual_record(t, i, f.tag, f.end) {
            return false;
        }
        roots = roots_after(roots, f.tag);
        left -= 1;
        i = f.end;
    }
    true
}
