// The types of a table: its definitions in a book, what a name means, which objects an interface or union can be, sub-types.
// Nothing is asked of the table but its sizes.
#![tactic(auto)]

ghost use Rattle.std.specs.Prelude.{◌≡◌, true, false, ◌+◌, ◌-◌, ◌≤◌, ◌<◌, length, get_or, set};
ghost use Rattle.paper_table.specs.TableNumbers.{most_table};
ghost use Rattle.paper_table.specs.Lists.{any_of, first_at, bytes};
ghost use Rattle.paper_table.specs.Types.{table_of, type_named, directive_named, is_roots, is_built_in, meaning, meant, can_be, member_named};
ghost use Rattle.table_fields.specs.Fields.{Bounds};
ghost use Rattle.table_book.specs.Book.{part, room, book_size, count_in};
ghost use Rattle.table_members.specs.Members.{members_in};
ghost use Rattle.table_types.specs.Booked.{Booked, Bookable, Recorded, Put, Entering, NumberMeant, kind_in, is_composite_tag, spoken, SubTyped};

use paper_table::{
    RECORD_DIRECTIVE, RECORD_INPUT_OBJECT, RECORD_INTERFACE, RECORD_OBJECT, RECORD_ROOTS,
    RECORD_SCALAR, RECORD_UNION,
};
use table_book::{CELL_COUNT, CELL_END, CELL_NAME, CELL_SIZE, CELL_START};
use table_members::TypeRead;

// What a name means: a built-in scalar, the type that is the table's definition of a number, or nothing.
#[derive(Clone, Copy)]
pub enum Meant {
    BuiltIn,
    Definition(usize),
    Nothing,
}

// Writes entry i.
pub fn put_entry(
    book: &mut [u32],
    i: usize,
    tag: u8,
    name: usize,
    size: usize,
    start: usize,
    end: usize,
)
    requires { (length book.old ≡ book_size) × (i < room) × (name ≤ most_table) × (size ≤ most_table) × (start ≤ most_table) × (end ≤ most_table) }
    ensures { Put book.old book.new i tag name size start end }
{
    book[i] = tag as u32;
    book[CELL_NAME + i] = name as u32;
    book[CELL_SIZE + i] = size as u32;
    book[CELL_START + i] = start as u32;
    book[CELL_END + i] = end as u32;
}

// Enters the record with this tag and content as number i.
fn enter(t: &[u8], book: &mut [u32], i: usize, tag: u8, start: usize, end: usize)
    requires { Bounds t.now start end × (length book.old ≡ book_size) × (i < room) }
    ensures { Entering t.now book.old book.new i tag start end }
{
    let m = table_members::name_in(t, start, end);
    put_entry(book, i, tag, m.at, m.size, start, end);
}

// Enters a table's records, and says how many there are.
fn records(t: &[u8], book: &mut [u32]) -> usize
    requires { Bookable t.now book.old }
    ensures { Recorded t.now book.new result }
{
    let end = t.len();
    let mut at = 0;
    let mut i = 0;
    while at < end {
        let Some(f) = table_fields::read_field(t, at, end) else {
            return i;
        };
        enter(t, book, i, f.tag, f.start, f.end);
        i += 1;
        at = f.end;
    }
    i
}

// Makes the book of a table.
pub fn fill(t: &[u8], book: &mut [u32])
    requires { Bookable t.now book.old }
    ensures { Booked t.now book.new }
{
    let n = records(t, book);
    book[CELL_COUNT] = n as u32;
    table_book::link(t, book);
}

// Is it the name of a built-in scalar?
pub fn is_built_in(s: &[u8], at: usize, n: usize) -> bool
    requires { at + n ≤ length s.now }
    ensures { result ≡ is_built_in (part s.now at n) }
{
    if table_book::is_text(s, at, n, b"Int", 0, 3) {
        return true;
    }
    if table_book::is_text(s, at, n, b"Float", 0, 5) {
        return true;
    }
    if table_book::is_text(s, at, n, b"String", 0, 6) {
        return true;
    }
    if table_book::is_text(s, at, n, b"Boolean", 0, 7) {
        return true;
    }
    table_book::is_text(s, at, n, b"ID", 0, 2)
}

// tags, as a book has them: of no type; the highest of a type
pub const NO_TYPE: u32 = 0;

pub const HIGHEST_TYPE: u32 = RECORD_INPUT_OBJECT;

// The number of the first type whose name is the n bytes of s from `at` on; the count of definitions if there is none.
pub fn first_type(t: &[u8], book: &[u32], s: &[u8], at: usize, n: usize) -> usize
    requires { Booked t.now book.now × (at + n ≤ length s.now) }
    ensures { result ≡ first_at (type_named (part s.now at n)) (table_of t.now) }
{
    table_book::find_key(t, book, NO_TYPE, HIGHEST_TYPE, s, at, n)
}

// The same of directives.
pub fn first_directive(t: &[u8], book: &[u32], s: &[u8], at: usize, n: usize) -> usize
    requires { Booked t.now book.now × (at + n ≤ length s.now) }
    ensures { result ≡ first_at (directive_named (part s.now at n)) (table_of t.now) }
{
    table_book::find_key(t, book, RECORD_DIRECTIVE, RECORD_DIRECTIVE, s, at, n)
}

// The number of the record 8; the count of definitions if there is none.
pub fn first_roots(t: &[u8], book: &[u32]) -> usize
    requires { Booked t.now book.now }
    ensures { result ≡ first_at is_roots (table_of t.now) }
{
    let count = table_book::count_of(book);
    for i in 0..count {
        if table_book::kind_of(book, i) == RECORD_ROOTS {
            return i;
        }
    }
    count
}

// The number of the type `Query`, the only root where there is no record 8; the count of definitions if there is none.
pub fn first_query(t: &[u8], book: &[u32]) -> usize
    requires { Booked t.now book.now }
    ensures { result ≡ first_at (type_named (bytes "Query")) (table_of t.now) }
{
    first_type(t, book, b"Query", 0, 5)
}

// What the name of n bytes of s from `at` on means.
pub fn meaning_of(t: &[u8], book: &[u32], s: &[u8], at: usize, n: usize) -> Meant
    requires { Booked t.now book.now × (at + n ≤ length s.now) }
    ensures { result ≡ spoken (meaning (table_of t.now) (part s.now at n)) }
{
    if is_built_in(s, at, n) {
        return Meant::BuiltIn;
    }
    let k = first_type(t, book, s, at, n);
    if k < table_book::count_of(book) {
        return Meant::Definition(k);
    }
    Meant::Nothing
}

// The tag of the type that a name means: 1 of a built-in scalar, 0 of nothing.
pub fn tag_meant(t: &[u8], book: &[u32], s: &[u8], at: usize, n: usize) -> u32
    requires { Booked t.now book.now × (at + n ≤ length s.now) }
    ensures { result ≡ (meant (table_of t.now) (part s.now at n)).tag }
{
    if is_built_in(s, at, n) {
        return RECORD_SCALAR;
    }
    let k = first_type(t, book, s, at, n);
    if k < table_book::count_of(book) {
        return table_book::kind_of(book, k);
    }
    NO_TYPE
}

// Is it the tag of an object, interface or union?
pub fn is_composite(tag: u32) -> bool
    ensures { result ≡ is_composite_tag tag }
{
    if tag < RECORD_OBJECT {
        return false;
    }
    tag <= RECORD_UNION
}

// Has a record a member whose name is the n bytes of s from `at` on?
pub fn has_member(t: &[u8], start: usize, end: usize, s: &[u8], at: usize, n: usize) -> bool
    requires { Bounds t.now start end × (at + n ≤ length s.now) }
    ensures { result ≡ any_of (member_named (part s.now at n)) (members_in t.now start end) }
{
    table_members::find_member(t, start, end, s, at, n).is_some()
}

// Entry i's kind; 0 if there is no such entry.
pub fn kind_in(book: &[u32], i: usize) -> u32
    requires { (length book.now ≡ book_size) × (count_in book.now ≤ room) }
    ensures { result ≡ kind_in book.now i }
{
    if i < table_book::count_of(book) {
        return table_book::kind_of(book, i);
    }
    NO_TYPE
}

// The number of the definition that a name means; one past the last if it is none of the table's.
pub fn number_meant(t: &[u8], book: &[u32], s: &[u8], at: usize, n: usize) -> usize
    requires { Booked t.now book.now × (at + n ≤ length s.now) }
    ensures { NumberMeant t.now book.now (part s.now at n) result }
{
    if is_built_in(s, at, n) {
        return table_book::count_of(book);
    }
    first_type(t, book, s, at, n)
}

// Can the interface or union of the name at `a` be the object of the name at `o`?
pub fn can_be(t: &[u8], book: &[u32], s: &[u8], a: usize, an: usize, o: usize, on: usize) -> bool
    requires { Booked t.now book.now × (a + an ≤ length s.now) × (o + on ≤ length s.now) }
    ensures { result ≡ can_be (table_of t.now) (part s.now a an) (part s.now o on) }
{
    let i = number_meant(t, book, s, o, on);
    if kind_in(book, i) != RECORD_OBJECT {
        return false;
    }
    let j = number_meant(t, book, s, a, an);
    let kind = kind_in(book, j);
    if kind == RECORD_INTERFACE {
        return table_members::implements(
            t,
            table_book::start_of(book, i),
            table_book::end_of(book, i),
            s,
            a,
            an,
        );
    }
    if kind == RECORD_UNION {
        return has_member(
            t,
            table_book::start_of(book, j),
            table_book::end_of(book, j),
            s,
            o,
            on,
        );
    }
    false
}

// Is the type r a sub-type of q?
pub fn is_sub_type(t: &[u8], book: &[u32], r: TypeRead, q: TypeRead) -> bool
    requires { Booked t.now book.now × (r.at + r.size ≤ length t.now) × (q.at + q.size ≤ length t.now) }
    ensures { SubTyped t.now r.at r.size r.wrappers q.at q.size q.wrappers result }
{
    if table_book::is_text(t, r.at, r.size, t, q.at, q.size) {
        return table_subtypes::sub_type(true, false, r.wrappers, q.wrappers);
    }
    table_subtypes::sub_type(
        false,
        can_be(t, book, t, q.at, q.size, r.at, r.size),
        r.wrappers,
        q.wrappers,
    )
}
