// Whether a definition keeps the rules 4 to 8, in one walk over its members and their arguments: if the answer is true it does.
// What breaks a rule, and where, crate rules says. Of the table nothing is asked but its sizes.
#![tactic(auto)]

ghost use Rattle.std.specs.Prelude.{◌≡◌, true, false, ◌+◌, ◌≤◌, ◌<◌, length};
ghost use Rattle.paper_table.specs.TableNumbers.{most_table};
ghost use Rattle.paper_table.specs.Types.{table_of};
ghost use Rattle.table_fields.specs.Fields.{Bounds};
ghost use Rattle.table_book.specs.Book.{part, count_in};
ghost use Rattle.table_members.specs.Members.{members_in, arguments_in, member_from, argument_from};
ghost use Rattle.table_types.specs.Booked.{Booked, definition_on};
ghost use Rattle.table_rules_4_8_quick.specs.Sound.{EveryFrom, member_name, argument_name, Before, ArgumentSound, BaseSound, MemberSound, Sound, InputTag, cells, tail_limit, tail_at, cell_of, member_mark, Noted, Told};

use paper_table::{RECORD_INPUT_OBJECT, TAG_ARGUMENT, TAG_FIELD};

// the tags of meant types
const NO_TYPE: u32 = 0;

// Names are noted in so many cells; what each of the last six bytes of a name counts in its cell's number.
const CELLS: usize = 256;

const LONG: usize = 6;

const SIXTH_LAST: usize = 43;

const FIFTH_LAST: usize = 41;

const FOURTH_LAST: usize = 61;

const THIRD_LAST: usize = 107;

const SECOND_LAST: usize = 7;

const LAST: usize = 17;

// A byte as a place.
fn wide(x: u8) -> usize
    ensures { (result ≡ x) × (result < 256) }
{
    x as usize
}

// What the four bytes from `at` on count, where two are behind them.
fn tail_of(t: &[u8], at: usize) -> usize
    requires { (at + 4 ≤ length t.now) × (length t.now ≤ most_table) }
    ensures { (result ≡ tail_at t.now at) × (result < tail_limit) }
{
    SIXTH_LAST * wide(t[at])
        + FIFTH_LAST * wide(t[at + 1])
        + FOURTH_LAST * wide(t[at + 2])
        + THIRD_LAST * wide(t[at + 3])
}

// The cell of the name of n bytes from `at` on.
fn cell_of(t: &[u8], at: usize, n: usize) -> usize
    requires { (at + n ≤ length t.now) × (length t.now ≤ most_table) }
    ensures { (result ≡ cell_of (part t.now at n)) × (result < cells) }
{
    if n == 0 {
        return 0;
    }
    let first = wide(t[at]);
    if n == 1 {
        return first % CELLS;
    }
    let second = wide(t[at + n - 2]);
    let last = wide(t[at + n - 1]);
    let ends = n + first + SECOND_LAST * second + LAST * last;
    if n < LONG {
        return ends % CELLS;
    }
    (ends + tail_of(t, at + n - LONG)) % CELLS
}

// Notes a name by this mark; may it be noted already?
fn note(t: &[u8], seen: &mut [u8], mark: u8, at: usize, n: usize) -> bool
    requires { (at + n ≤ length t.now) × (length t.now ≤ most_table) × (length seen.old ≡ cells) }
    ensures { Noted seen.old seen.new mark (part t.now at n) result }
{
    let k = cell_of(t, at, n);
    if seen[k] == mark {
        return true;
    }
    seen[k] = mark;
    false
}

// Rule 4 of an argument's name, of n bytes from `at` on; the field's arguments stand from `from` up to `end`, and so many before it are noted.
fn is_argument_new(
    t: &[u8],
    seen: &mut [u8],
    mark: u8,
    from: usize,
    end: usize,
    a: u32,
    at: usize,
    n: usize,
) -> bool
    requires { Bounds t.now from end × (at + n ≤ length t.now) × (length seen.old ≡ cells) }
    ensures { Told argument_name (Before argument_name (arguments_in t.now from end) a (part t.now at n) ≡ false) (arguments_in t.now from end) a (part t.now at n) seen.old seen.new mark result }
{
    if note(t, seen, mark, at, n) {
        return !table_names::is_argument_before(t, from, end, a, at, n);
    }
    true
}

// The same of a member's name.
fn is_member_new(
    t: &[u8],
    seen: &mut [u8],
    mark: u8,
    from: usize,
    end: usize,
    m: u32,
    at: usize,
    n: usize,
) -> bool
    requires { Bounds t.now from end × (at + n ≤ length t.now) × (length seen.old ≡ cells) }
    ensures { Told member_name (Before member_name (members_in t.now from end) m (part t.now at n) ≡ false) (members_in t.now from end) m (part t.now at n) seen.old seen.new mark result }
{
    if note(t, seen, mark, at, n) {
        return !table_names::is_member_before(t, from, end, m, at, n);
    }
    true
}

// Rules 7 and 8 of an argument or input field: a type, and no object, interface or union.
fn is_input(tag: u32) -> bool
    ensures { result ≡ true → InputTag tag }
{
    if tag == NO_TYPE {
        return false;
    }
    !table_types::is_composite(tag)
}

// Rules 4, 5, 7 and 8 of the argument from `start` up to `stop`, its number a, of the field from `from` up to `end`.
fn is_argument_sound(
    t: &[u8],
    book: &[u32],
    seen: &mut [u8],
    mark: u8,
    from: usize,
    end: usize,
    a: u32,
    start: usize,
    stop: usize,
) -> bool
    requires { Booked t.now book.now × Bounds t.now from end × Bounds t.now start stop × (length seen.old ≡ cells) }
    ensures { Told argument_name (ArgumentSound (table_of t.now) (arguments_in t.now from end) a (argument_from t.now start stop)) (arguments_in t.now from end) a (argument_from t.now start stop).name seen.old seen.new mark result }
{
    let name = table_members::name_in(t, start, stop);
    if table_names::is_reserved(t, name.at, name.size) {
        return false;
    }
    if !is_argument_new(t, seen, mark, from, end, a, name.at, name.size) {
        return false;
    }
    is_input(table_bases::base_tag(t, book, start, stop))
}

// The same of all the arguments of the member with this tag and content.
fn are_arguments_sound(
    t: &[u8],
    book: &[u32],
    seen: &mut [u8],
    mark: u8,
    tag: u8,
    start: usize,
    end: usize,
) -> bool
    requires { Booked t.now book.now × Bounds t.now start end × (length seen.old ≡ cells) }
    ensures { (length seen.new ≡ cells) × (result ≡ true → EveryFrom (ArgumentSound (table_of t.now) (member_from t.now tag start end).arguments) 0 (member_from t.now tag start end).arguments) }
{
    let first = table_members::arguments_from(t, tag, start, end);
    let mut i = first;
    let mut a = 0;
    loop {
        let Some(f) = table_members::next_argument(t, i, end) else {
            return true;
        };
        if !is_argument_sound(t, book, seen, mark, first, end, a, f.start, f.end) {
            return false;
        }
        i = f.end;
        a += 1;
    }
}

// Rules 7 and 8 of the member with this tag and content.
fn is_base_sound(t: &[u8], book: &[u32], tag: u8, start: usize, end: usize) -> bool
    requires { Booked t.now book.now × Bounds t.now start end }
    ensures { result ≡ true → BaseSound (table_of t.now) (member_from t.now tag start end) }
{
    if tag == TAG_FIELD {
        let base = table_bases::base_tag(t, book, start, end);
        if base == NO_TYPE {
            return false;
        }
        return base != RECORD_INPUT_OBJECT;
    }
    if tag == TAG_ARGUMENT {
        return is_input(table_bases::base_tag(t, book, start, end));
    }
    true
}

// A mark for the arguments' names of each of so many members.
const MARKS: u32 = 255;

const MEMBER: u8 = 1;

// Rules 4 to 8 of the member with this tag and content, its number m, of the record from `from` up to `end`; in any record its name is asked
// as a field's and as an enum value's.
fn is_member_sound(
    t: &[u8],
    book: &[u32],
    seen: &mut [u8],
    others: &mut [u8],
    from: usize,
    end: usize,
    m: u32,
    tag: u8,
    start: usize,
    stop: usize,
) -> bool
    requires { Booked t.now book.now × Bounds t.now from end × Bounds t.now start stop × (length seen.old ≡ cells) × (length others.old ≡ cells) }
    ensures { Told member_name (MemberSound (table_of t.now) (members_in t.now from end) m (member_from t.now tag start stop)) (members_in t.now from end) m (member_from t.now tag start stop).name seen.old seen.new member_mark result × (length others.new ≡ cells) }
{
    let name = table_members::member_name(t, tag, start, stop);
    if table_names::is_reserved(t, name.at, name.size) {
        return false;
    }
    if table_names::is_no_enum_value(t, name.at, name.size) {
        return false;
    }
    if !is_member_new(t, seen, MEMBER, from, end, m, name.at, name.size) {
        return false;
    }
    if !is_base_sound(t, book, tag, start, stop) {
        return false;
    }
    are_arguments_sound(t, book, others, (m % MARKS + 1) as u8, tag, start, stop)
}

// The same of all the members of the record from `from` up to `end`.
fn are_members_sound(
    t: &[u8],
    book: &[u32],
    seen: &mut [u8],
    others: &mut [u8],
    from: usize,
    end: usize,
) -> bool
    requires { Booked t.now book.now × Bounds t.now from end × (length seen.old ≡ cells) × (length others.old ≡ cells) }
    ensures { result ≡ true → EveryFrom (MemberSound (table_of t.now) (members_in t.now from end)) 0 (members_in t.now from end) }
{
    let mut i = from;
    let mut m = 0;
    loop {
        let Some(f) = table_members::next_member(t, i, end) else {
            return true;
        };
        if !is_member_sound(t, book, seen, others, from, end, m, f.tag, f.start, f.end) {
            return false;
        }
        i = f.end;
        m += 1;
    }
}

// Does definition i keep the five rules?
pub fn is_sound(t: &[u8], book: &[u32], i: usize) -> bool
    requires { Booked t.now book.now × (i < count_in book.now) }
    ensures { result ≡ true → Sound (table_of t.now) i (definition_on t.now i) }
{
    let mut seen = [0u8; CELLS];
    let mut others = [0u8; CELLS];
    are_members_sound(
        t,
        book,
        &mut seen,
        &mut others,
        table_book::start_of(book, i),
        table_book::end_of(book, i),
    )
}
