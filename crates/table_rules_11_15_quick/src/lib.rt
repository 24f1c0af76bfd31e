// Whether a definition keeps the rules 11 to 15, in one walk over the fields that its interfaces promise: if the answer is true it does.
// What breaks a rule, and where, `table_rules_11_15` says. Of the table nothing is asked but its sizes.
#![tactic(auto)]

ghost use Rattle.std.specs.Prelude.{◌≡◌, true, false, ◌⊎◌, ◌+◌, ◌-◌, ◌≤◌, ◌<◌, length};
ghost use Rattle.paper_table.specs.Lists.{all_of};
ghost use Rattle.paper_table.specs.References.{is_non_null};
ghost use Rattle.paper_table.specs.Rule12FieldType.{no_sub_type};
ghost use Rattle.paper_table.specs.Types.{table_of, type_in, can_be};
ghost use Rattle.table_fields.specs.Fields.{Bounds};
ghost use Rattle.table_book.specs.Book.{part, count_in};
ghost use Rattle.table_members.specs.Members.{fields_in, members_in, arguments_in, member_from, field_from, argument_from};
ghost use Rattle.table_types.specs.Booked.{Booked, start_in, end_in, definition_on};
ghost use Rattle.table_types.specs.Sizes.{slim_member, Slim};
ghost use Rattle.table_listing.specs.Listed.{Listed};
ghost use Rattle.table_possible.specs.Possible.{Possible};
ghost use Rattle.table_rules_11_15_quick.specs.Numbered.{ArgumentSought};
ghost use Rattle.table_rules_11_15_quick.specs.Keeping.{Every, ArgumentKept, ExtraKept, OwnKept, FieldKept, NameKept, AllKept, SubKept, bit_of, ExtrasKept, MatchedAs};

use paper_table::{RECORD_INTERFACE, TAG_FIELD, TAG_REFERENCE};
use table_members::TypeRead;

// Are the texts of two type references the same?
fn is_alike(t: &[u8], start: usize, end: usize, from: usize, stop: usize) -> bool
    requires { Bounds t.now start end × Bounds t.now from stop }
    ensures { result ≡ true → type_in (fields_in t.now start end) ≡ type_in (fields_in t.now from stop) }
{
    let p = table_fields::find_tag(t, start, end, TAG_REFERENCE);
    let q = table_fields::find_tag(t, from, stop, TAG_REFERENCE);
    table_book::is_text(t, p.start, p.end - p.start, t, q.start, q.end - q.start)
}

// Can the type of q's name be the object of r's?
fn is_possible(t: &[u8], book: &[u32], bits: &[u32], q: TypeRead, r: TypeRead) -> bool
    requires { Booked t.now book.now × Possible t.now book.now bits.now × (q.at + q.size ≤ length t.now) × (r.at + r.size ≤ length t.now) }
    ensures { result ≡ true → can_be (table_of t.now) (part t.now q.at q.size) (part t.now r.at r.size) ≡ true }
{
    let j = table_types::number_meant(t, book, t, r.at, r.size);
    if table_book::count_of(book) <= j {
        return false;
    }
    let i = table_types::number_meant(t, book, t, q.at, q.size);
    if table_book::count_of(book) <= i {
        return false;
    }
    table_possible::is_set(bits, i, j)
}

// Is the type r a sub-type of q?
fn is_below(t: &[u8], book: &[u32], bits: &[u32], r: TypeRead, q: TypeRead) -> bool
    requires { Booked t.now book.now × Possible t.now book.now bits.now × (r.at + r.size ≤ length t.now) × (q.at + q.size ≤ length t.now) }
    ensures { SubKept t.now r.at r.size r.wrappers q.at q.size q.wrappers result }
{
    if table_book::is_text(t, r.at, r.size, t, q.at, q.size) {
        return table_subtypes::sub_type(true, false, r.wrappers, q.wrappers);
    }
    table_subtypes::sub_type(
        false,
        is_possible(t, book, bits, q, r),
        r.wrappers,
        q.wrappers,
    )
}

// Rule 12 of the interface's field from `start` up to `end` and the own one from `from` up to `stop`.
fn is_type_kept(
    t: &[u8],
    book: &[u32],
    bits: &[u32],
    start: usize,
    end: usize,
    from: usize,
    stop: usize,
) -> bool
    requires { Booked t.now book.now × Possible t.now book.now bits.now × Bounds t.now start end × Bounds t.now from stop × (slim_member (field_from t.now start end) ≡ true) × (slim_member (field_from t.now from stop) ≡ true) }
    ensures { result ≡ true → no_sub_type (table_of t.now) (field_from t.now start end) (field_from t.now from stop) ≡ false }
{
    if is_alike(t, start, end, from, stop) {
        return true;
    }
    let r = table_members::type_in(t, from, stop);
    let q = table_members::type_in(t, start, end);
    is_below(t, book, bits, r, q)
}

// An argument's number, and where its content starts and ends.
#[derive(Clone, Copy)]
pub struct Argument {
    pub number: usize,
    pub start: usize,
    pub end: usize,
}

// The first argument so named, from `from` on in a member's content, with its number, by which it is marked (`table_members::find_argument` counts none);
// none if there is none.
fn argument_in(t: &[u8], from: usize, end: usize, s: &[u8], at: usize, n: usize) -> Option<Argument>
    requires { Bounds t.now from end × (at + n ≤ length s.now) }
    ensures { ArgumentSought t.now (arguments_in t.now from end) (part s.now at n) result }
{
    let mut i = from;
    let mut a = 0;
    loop {
        let f = table_members::next_argument(t, i, end)?;
        let name = table_members::name_in(t, f.start, f.end);
        if table_book::is_text(t, name.at, name.size, s, at, n) {
            return Some(Argument {
                number: a,
                start: f.start,
                end: f.end,
            });
        }
        i = f.end;
        a += 1;
    }
}

const BITS: usize = 32;

// Rules 13 and 14 of the interface's argument from `start` up to `end`, where the own field's stand from `from` up to `stop`: the number of the one
// that has its name and type, none if none is known to.
fn matching(t: &[u8], start: usize, end: usize, from: usize, stop: usize) -> Option<u32>
    requires { Bounds t.now start end × Bounds t.now from stop }
    ensures { MatchedAs (arguments_in t.now from stop) (argument_from t.now start end) result }
{
    let n = table_members::name_in(t, start, end);
    let a = argument_in(t, from, stop, t, n.at, n.size)?;
    if BITS <= a.number {
        return None;
    }
    if is_alike(t, start, end, a.start, a.end) {
        return Some(a.number as u32);
    }
    None
}

const MOST_MARKED: u32 = 31;

const WRAPPERS: u32 = 4;

const NON_NULL: u32 = 2;

// Is the argument with this content, its number k, not marked, and Non-Null?
fn is_loose(t: &[u8], start: usize, end: usize, marks: u32, k: u32) -> bool
    requires { Bounds t.now start end }
    ensures { result ≡ false → (bit_of marks k ≡ 1) ⊎ (is_non_null (argument_from t.now start end).type ≡ false) }
{
    if MOST_MARKED < k {
        return true;
    }
    if (marks >> k) % 2 == 1 {
        return false;
    }
    let x = table_members::type_in(t, start, end);
    x.wrappers % WRAPPERS == NON_NULL
}

// Rule 15 of the arguments from `from` up to `stop`, where those are marked that the interface's field has.
fn are_extras_kept(t: &[u8], from: usize, stop: usize, marks: u32) -> bool
    requires { Bounds t.now from stop }
    ensures { ExtrasKept (arguments_in t.now from stop) marks result }
{
    let mut i = from;
    let mut k = 0;
    loop {
        let Some(f) = table_members::next_argument(t, i, stop) else {
            return true;
        };
        if is_loose(t, f.start, f.end, marks, k) {
            return false;
        }
        i = f.end;
        k += 1;
    }
}

// Rules 13 to 15 of the interface's field from `at` up to `end` and the own one from `from` up to `stop`.
fn are_arguments_kept(t: &[u8], at: usize, end: usize, from: usize, stop: usize) -> bool
    requires { Bounds t.now at end × Bounds t.now from stop }
    ensures { result ≡ true → Every (ArgumentKept (arguments_in t.now from stop)) (arguments_in t.now at end) × Every (ExtraKept (arguments_in t.now at end)) (arguments_in t.now from stop) }
{
    let mut i = at;
    let mut marks = 0;
    loop {
        let Some(f) = table_members::next_argument(t, i, end) else {
            return are_extras_kept(t, from, stop, marks);
        };
        let Some(k) = matching(t, f.start, f.end, from, stop) else {
            return false;
        };
        marks = marks | (1 << k);
        i = f.end;
    }
}

// Rules 12 to 15 of the interface's field from `start` up to `end` and the own one from `from` up to `stop`.
fn is_own_kept(
    t: &[u8],
    book: &[u32],
    bits: &[u32],
    start: usize,
    end: usize,
    from: usize,
    stop: usize,
) -> bool
    requires { Booked t.now book.now × Possible t.now book.now bits.now × Bounds t.now start end × Bounds t.now from stop × (slim_member (field_from t.now start end) ≡ true) × (slim_member (field_from t.now from stop) ≡ true) }
    ensures { result ≡ true → OwnKept (table_of t.now) (field_from t.now start end) (field_from t.now from stop) }
{
    if is_type_kept(t, book, bits, start, end, from, stop) {
        return are_arguments_kept(t, start, end, from, stop);
    }
    false
}

// Rules 11 to 15 of the interface's field with this tag and content, where the definition's members stand from `from` up to `stop`, and in
// the book `listed`.
fn is_field_kept(
    t: &[u8],
    book: &[u32],
    bits: &[u32],
    listed: &[u32],
    tag: u8,
    start: usize,
    end: usize,
    from: usize,
    stop: usize,
) -> bool
    requires { Booked t.now book.now × Possible t.now book.now bits.now × Bounds t.now start end × Bounds t.now from stop × (slim_member (member_from t.now tag start end) ≡ true) × (all_of slim_member (members_in t.now from stop) ≡ true) × Listed t.now listed.now from stop }
    ensures { result ≡ true → FieldKept (table_of t.now) (members_in t.now from stop) (member_from t.now tag start end) }
{
    if tag != TAG_FIELD {
        return false;
    }
    let n = table_members::name_in(t, start, end);
    let Some(f) = table_listing::find_listed(t, listed, from, stop, t, n.at, n.size) else {
        return false;
    };
    if f.tag != TAG_FIELD {
        return false;
    }
    is_own_kept(t, book, bits, start, end, f.start, f.end)
}

// The same of all the fields of the interface whose content stands from `at` up to `end`.
fn is_interface_kept(
    t: &[u8],
    book: &[u32],
    bits: &[u32],
    listed: &[u32],
    at: usize,
    end: usize,
    from: usize,
    stop: usize,
) -> bool
    requires { Booked t.now book.now × Possible t.now book.now bits.now × Bounds t.now at end × Bounds t.now from stop × (all_of slim_member (members_in t.now at end) ≡ true) × (all_of slim_member (members_in t.now from stop) ≡ true) × Listed t.now listed.now from stop }
    ensures { result ≡ true → Every (FieldKept (table_of t.now) (members_in t.now from stop)) (members_in t.now at end) }
{
    let mut i = at;
    loop {
        let Some(f) = table_members::next_member(t, i, end) else {
            return true;
        };
        if !is_field_kept(t, book, bits, listed, f.tag, f.start, f.end, from, stop) {
            return false;
        }
        i = f.end;
    }
}

// The same of the implemented name of n bytes from `at` on.
fn is_name_kept(
    t: &[u8],
    book: &[u32],
    bits: &[u32],
    listed: &[u32],
    at: usize,
    n: usize,
    from: usize,
    stop: usize,
) -> bool
    requires { Booked t.now book.now × Possible t.now book.now bits.now × Slim (table_of t.now) × (at + n ≤ length t.now) × Bounds t.now from stop × (all_of slim_member (members_in t.now from stop) ≡ true) × Listed t.now listed.now from stop }
    ensures { result ≡ true → NameKept (table_of t.now) (members_in t.now from stop) (part t.now at n) }
{
    let k = table_types::number_meant(t, book, t, at, n);
    if table_types::kind_in(book, k) != RECORD_INTERFACE {
        return true;
    }
    is_interface_kept(
        t,
        book,
        bits,
        listed,
        table_book::start_of(book, k),
        table_book::end_of(book, k),
        from,
        stop,
    )
}

// Does definition d keep the five rules? Its members stand in the book `listed`.
pub fn is_all_kept(t: &[u8], book: &[u32], bits: &[u32], listed: &[u32], d: usize) -> bool
    requires { Booked t.now book.now × Possible t.now book.now bits.now × Slim (table_of t.now) × (d < count_in book.now) × Listed t.now listed.now (start_in book.now d) (end_in book.now d) }
    ensures { result ≡ true → AllKept (table_of t.now) d (definition_on t.now d) }
{
    let from = table_book::start_of(book, d);
    let stop = table_book::end_of(book, d);
    let mut i = from;
    loop {
        let Some(f) = table_members::next_implemented(t, i, stop) else {
            return true;
        };
        if !is_name_kept(t, book, bits, listed, f.start, f.end - f.start, from, stop) {
            return false;
        }
        i = f.end;
    }
}
