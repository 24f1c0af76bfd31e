// Where a table's framing is wrong first. Nothing is asked of the bytes.
#![tactic(auto)]

ghost use Rattle.std.specs.Prelude.{◌≡◌, ◌+◌, ◌≤◌, length};
ghost use mathlib.Core.List.{head?};
ghost use Rattle.std.proofs.Math.Seq.{slice};
ghost use Rattle.paper_table.specs.TableNumbers.{most_table, tag_name, tag_reference};
ghost use Rattle.paper_table.specs.Lists.{any_of};
ghost use Rattle.paper_table.specs.House.{house_fields, tag_is, wrongs, record_in_place, framing_offset};
ghost use Rattle.table_fields.specs.Fields.{Bounds};
ghost use Rattle.table_framing.specs.declared.Holding.TheVariants.{Fields};
ghost use Rattle.table_framing.specs.Holders.{HoldsAs, rank, least_after, placed};
ghost use Rattle.table_framing.specs.Framing.{told, is_leaf, roots_after};

use paper_table::{
    TAG_ARGUMENT, TAG_DIRECTIVE, TAG_ENUM, TAG_ENUM_VALUE, TAG_FIELD, TAG_IMPLEMENTS,
    TAG_INPUT_OBJECT, TAG_INTERFACE, TAG_MUTATION_ROOT, TAG_NAME, TAG_OBJECT, TAG_QUERY_ROOT,
    TAG_REFERENCE, TAG_ROOTS, TAG_SCALAR, TAG_SUBSCRIPTION_ROOT, TAG_UNION, TAG_UNION_MEMBER,
};
use table_fields::{is_name, is_reference, read_field};

// What a field's content is: a name, a type reference's text, fields, or there is no such tag.
// Of fields: the tags of those that are due (the same twice if one is), and from which to which tag the others go.
#[derive(Clone, Copy)]
pub enum Holding {
    Name,
    Reference,
    Fields {
        first: u8,
        second: u8,
        from: u8,
        to: u8,
    },
    Nothing,
}

// Fields of which a name is due.
fn named(from: u8, to: u8) -> Holding
    ensures { result ≡ Fields tag_name tag_name from to }
{
    Holding::Fields {
        first: TAG_NAME,
        second: TAG_NAME,
        from: from,
        to: to,
    }
}

// Fields of which a name and a type reference are due.
fn typed(from: u8, to: u8) -> Holding
    ensures { result ≡ Fields tag_name tag_reference from to }
{
    Holding::Fields {
        first: TAG_NAME,
        second: TAG_REFERENCE,
        from: from,
        to: to,
    }
}

// From the first to the second is no tag.
const AFTER_NONE: u8 = 1;

const NONE: u8 = 0;

pub fn content_of(tag: u8) -> Holding
    ensures { HoldsAs tag result }
{
    match tag {
        TAG_SCALAR => named(AFTER_NONE, NONE),
        TAG_OBJECT => named(TAG_IMPLEMENTS, TAG_FIELD),
        TAG_INTERFACE => named(TAG_FIELD, TAG_FIELD),
        TAG_UNION => named(TAG_UNION_MEMBER, TAG_UNION_MEMBER),
        TAG_ENUM => named(TAG_ENUM_VALUE, TAG_ENUM_VALUE),
        TAG_INPUT_OBJECT => named(TAG_ARGUMENT, TAG_ARGUMENT),
        TAG_DIRECTIVE => named(TAG_ARGUMENT, TAG_ARGUMENT),
        TAG_ROOTS => Holding::Fields {
            first: TAG_QUERY_ROOT,
            second: TAG_QUERY_ROOT,
            from: TAG_MUTATION_ROOT,
            to: TAG_SUBSCRIPTION_ROOT,
        },
        TAG_FIELD => typed(TAG_ARGUMENT, TAG_REFERENCE),
        TAG_ARGUMENT => typed(TAG_REFERENCE, TAG_REFERENCE),
        TAG_REFERENCE => Holding::Reference,
        TAG_NAME => Holding::Name,
        TAG_IMPLEMENTS => Holding::Name,
        TAG_UNION_MEMBER => Holding::Name,
        TAG_ENUM_VALUE => Holding::Name,
        TAG_QUERY_ROOT => Holding::Name,
        TAG_MUTATION_ROOT => Holding::Name,
        TAG_SUBSCRIPTION_ROOT => Holding::Name,
        _ => Holding::Nothing,
    }
}

// Is there a field with this tag?
pub fn has_tag(t: &[u8], start: usize, end: usize, tag: u8) -> bool
    requires { Bounds t.now start end }
    ensures { result ≡ any_of (tag_is tag) (house_fields start (slice start end t.now)) }
{
    let mut i = start;
    while i < end {
        let Some(f) = read_field(t, i, end) else {
            return false;
        };
        if f.tag == tag {
            return true;
        }
        i = f.end;
    }
    false
}

// The order of the tags in every holder: by number, but a reference (20) comes before the arguments (19).
fn rank_of(k: u8) -> u32
    ensures { result ≡ rank k }
{
    if k == TAG_REFERENCE {
        return 37;
    }
    2 * (k as u32)
}

// The least rank in place behind a field of this tag: its own where there may be many, else the next.
pub fn least_after(k: u8) -> u32
    ensures { result ≡ least_after k }
{
    let rank = rank_of(k);
    if k < TAG_IMPLEMENTS {
        return rank + 1;
    }
    if TAG_ENUM_VALUE < k {
        return rank + 1;
    }
    if k == TAG_REFERENCE {
        return rank + 1;
    }
    rank
}

// Is a field of this tag in place, in a holder of these, from the least rank on?
pub fn in_place(first: u8, from: u8, to: u8, least: u32, k: u8) -> bool
    ensures { result ≡ placed first from to least k }
{
    if rank_of(k) < least {
        return false;
    }
    if k == first {
        return true;
    }
    if k < from {
        return false;
    }
    k <= to
}

// Is a content that is no fields right?
fn is_leaf(t: &[u8], start: usize, end: usize, h: Holding) -> bool
    requires { Bounds t.now start end }
    ensures { result ≡ is_leaf h (slice start end t.now) }
{
    match h {
        Holding::Name => is_name(t, start, end),
        Holding::Reference => is_reference(t, start, end),
        Holding::Fields {
            first: _,
            second: _,
            from: _,
            to: _,
        } => false,
        Holding::Nothing => false,
    }
}

// The field whose tag stands at `at` and whose content ends at `end`; fields stand in it `depth` deep at most. Err has its first wrong offset.
fn first_wrong(t: &[u8], at: usize, tag: u8, end: usize, depth: u32) -> Result<(), u32>
    requires { Bounds t.now (at + 3) end }
    ensures { result ≡ told (head? (wrongs depth at tag (slice (at + 3) end t.now))) }
{
    if depth == 0 {
        return Err(at as u32);
    }
    let h = content_of(tag);
    let Holding::Fields {
        first,
        second,
        from,
        to,
    } = h
    else {
        if is_leaf(t, at + 3, end, h) {
            return Ok(());
        }
        return Err(at as u32);
    };
    let mut least = 0;
    let mut i = at + 3;
    while i < end {
        let Some(f) = read_field(t, i, end) else {
            return Err(i as u32);
        };
        if !in_place(first, from, to, least, f.tag) {
            return Err(i as u32);
        }
        first_wrong(t, i, f.tag, f.end, depth - 1)?;
        least = least_after(f.tag);
        i = f.end;
    }
    let lacking = at as u32;
    if !has_tag(t, at + 3, end, first) {
        return Err(lacking);
    }
    if !has_tag(t, at + 3, end, second) {
        return Err(lacking);
    }
    Ok(())
}

// Records are 1 to 8 in any order, and 8 only once: `roots` is whether it may still come.
pub fn record_in_place(roots: bool, k: u8) -> bool
    ensures { result ≡ record_in_place roots k }
{
    if k < TAG_SCALAR {
        return false;
    }
    if TAG_ROOTS < k {
        return false;
    }
    if k == TAG_ROOTS {
        return roots;
    }
    true
}

pub fn roots_after(roots: bool, k: u8) -> bool
    ensures { result ≡ roots_after roots k }
{
    if k == TAG_ROOTS {
        return false;
    }
    roots
}

// A record, a field of it, its argument, its name.
pub const MOST_DEEP: u32 = 4;

// Refusal 7: Err has the smallest wrong offset of a table.
pub fn framing(t: &[u8]) -> Result<(), u32>
    requires { length t.now ≤ most_table }
    ensures { result ≡ told (framing_offset t.now) }
{
    let mut roots = true;
    let mut i = 0;
    while i < t.len() {
        let Some(f) = read_field(t, i, t.len()) else {
            return Err(i as u32);
        };
        if !record_in_place(roots, f.tag) {
            return Err(i as u32);
        }
        first_wrong(t, i, f.tag, f.end, MOST_DEEP)?;
        roots = roots_after(roots, f.tag);
        i = f.end;
    }
    Ok(())
}
