// The entries of a table: its members with types and their arguments in one list of numbers, which is made once, so that a member or argument, its type
// and what that type's name means are looked up and the table's fields are not read again. Of the table nothing is asked but its sizes.
// The judge of documents looks members and arguments up in them.
#![tactic(auto)]

ghost use Rattle.std.specs.Prelude.{◌≡◌, true, false, suc, ◌+◌, ◌-◌, ◌≤◌, ◌<◌, length, get_or};
ghost use Rattle.paper.specs.Tokens.{same};
ghost use Rattle.paper_table.specs.TableNumbers.{most_table};
ghost use Rattle.table_fields.specs.Fields.{Bounds};
ghost use Rattle.table_fields.specs.Wrappers.{pack_limit};
ghost use Rattle.table_book.specs.Book.{part, count_in, room, book_size};
ghost use Rattle.table_members.specs.Members.{members_in, arguments_in, member_from};
ghost use Rattle.table_types.specs.Booked.{Booked, definition_on};
ghost use Rattle.table_entries.specs.Entries.{room_entries, cells_each, cells_before, byte_values, Roomy, entry_key, entry_name, entry_size, next_of, no_type, Means, cell, first_of, key_of, has_types, entries_of, entries_in, DefinitionWritten, Enterable, Entered, QuickRead, HeaderRead, HeaderEntered, Put, Entering, ArgumentsWritten, MemberWritten, MembersWritten, NameStands, name_at, Standing, FindAnswer, Hit, MemberStands, ArgumentAnswer, TypeAnswer, MeantAnswer, KindAnswer, Here, NewAnswer};

use paper_table::{
    RECORD_DIRECTIVE, RECORD_INPUT_OBJECT, RECORD_INTERFACE, RECORD_OBJECT, RECORD_SCALAR,
    TAG_ARGUMENT, TAG_FIELD, TAG_NAME, TAG_REFERENCE,
};
use table_members::TypeRead;

// No entry: so many there are at most.
pub const NO_ENTRY: usize = 2978;

// How many cells a caller lends for a table of so many bytes; an entry takes eleven of them. What is lent is cleared, so little for a small table.
pub const SMALL_TABLE: usize = 748;

pub const SMALL_CELLS: usize = 808;

pub const MIDDLE_TABLE: usize = 4096;

pub const MIDDLE_CELLS: usize = 3240;

pub const MOST_CELLS: usize = 24088;

// How many cells stand before the entries and say where those of each definition begin; how many each entry has.
const CELLS_BEFORE: usize = 264;

const CELLS_EACH: usize = 8;

// An entry's cells: its key, the place and size of its name, the place and size of its base's name, its wrappers, the entry beside it, the number of the
// definition that its base means.
const ENTRY_KEY: usize = 0;

const ENTRY_NAME: usize = 1;

const ENTRY_SIZE: usize = 2;

const ENTRY_BASE: usize = 3;

const ENTRY_EXTENT: usize = 4;

const ENTRY_WRAPPERS: usize = 5;

const ENTRY_NEXT: usize = 6;

const ENTRY_MEANT: usize = 7;

// What a name's bytes count in its key: powers of 79 modulo 2^16, for the last byte, those before it, the first byte, and the size. 79 is a prime above the
// distance of any two bytes of names, so that names which differ in their last two bytes alone never have one key.
const KEY_VALUES: usize = 65536;

const KEY_SIZES: usize = 64;

const SECOND: usize = 79;

const THIRD: usize = 6241;

const FOURTH: usize = 34287;

const FIRST: usize = 21697;

const SIZE: usize = 10127;

fn wide(x: u16) -> usize
    ensures { result ≡ x }
{
    x as usize
}

fn wide_half(x: u16) -> u32
    ensures { result ≡ x }
{
    x as u32
}

fn wide_byte(x: u8) -> usize
    ensures { (result ≡ x) × (result < byte_values) }
{
    x as usize
}

// The byte that stands k before the end of the n bytes from `at` on; the first where they are fewer.
fn last_but(s: &[u8], at: usize, n: usize, k: usize) -> usize
    requires { (0 < n) × (0 < k) × (at + n ≤ length s.now) }
    ensures { (result ≡ get_or s.now (at + (n - k)) 0) × (result < byte_values) }
{
    if n < k {
        return wide_byte(s[at]);
    }
    wide_byte(s[at + (n - k)])
}

// A short number of the name of n bytes from `at` on.
pub fn key_of(s: &[u8], at: usize, n: usize) -> u16
    requires { at + n ≤ length s.now }
    ensures { result ≡ key_of (part s.now at n) }
{
    if n == 0 {
        return 0;
    }
    let ends = last_but(s, at, n, 1)
        + SECOND * last_but(s, at, n, 2)
        + THIRD * last_but(s, at, n, 3)
        + FOURTH * last_but(s, at, n, 4);
    ((ends + FIRST * last_but(s, at, n, n) + SIZE * (n % KEY_SIZES)) % KEY_VALUES) as u16
}

// Cell j of entry e.
fn cell_of(es: &[u16], e: usize, j: usize) -> usize
    requires { Roomy es.now (suc e) × (j < cells_each) }
    ensures { result ≡ cell es.now e j }
{
    wide(es[CELLS_BEFORE + CELLS_EACH * e + j])
}

// Entry e's key, the place and size of its name, and the entry beside it.
pub fn key_at(es: &[u16], e: usize) -> usize
    requires { Roomy es.now (suc e) }
    ensures { result ≡ cell es.now e entry_key }
{
    cell_of(es, e, ENTRY_KEY)
}

pub fn name_at(es: &[u16], e: usize) -> usize
    requires { Roomy es.now (suc e) }
    ensures { result ≡ cell es.now e entry_name }
{
    cell_of(es, e, ENTRY_NAME)
}

pub fn size_at(es: &[u16], e: usize) -> usize
    requires { Roomy es.now (suc e) }
    ensures { result ≡ cell es.now e entry_size }
{
    cell_of(es, e, ENTRY_SIZE)
}

pub fn next_of(es: &[u16], e: usize) -> usize
    requires { Roomy es.now (suc e) }
    ensures { result ≡ next_of es.now e }
{
    cell_of(es, e, ENTRY_NEXT)
}

// Is entry e of the name that is the n bytes of s from `at` on, with this key?
fn is_named(t: &[u8], es: &[u16], e: usize, key: usize, s: &[u8], at: usize, n: usize) -> bool
    requires { NameStands t.now es.now e × (at + n ≤ length s.now) × (key ≡ key_of (part s.now at n)) }
    ensures { result ≡ same (name_at t.now es.now e) (part s.now at n) }
{
    if cell_of(es, e, ENTRY_KEY) != key {
        return false;
    }
    table_book::is_text(
        t,
        cell_of(es, e, ENTRY_NAME),
        cell_of(es, e, ENTRY_SIZE),
        s,
        at,
        n,
    )
}

// The entry from `from` on, up to `end`, whose name is the n bytes of s from `at` on; `end` if there is none.
pub fn find(
    t: &[u8],
    book: &[u32],
    es: &[u16],
    from: usize,
    end: usize,
    s: &[u8],
    at: usize,
    n: usize,
) -> usize
    requires { Standing t.now book.now es.now from end × (at + n ≤ length s.now) }
    ensures { FindAnswer t.now book.now es.now from end (part s.now at n) result }
{
    let key = wide(key_of(s, at, n));
    let mut e = from;
    while e < end {
        if is_named(t, es, e, key, s, at, n) {
            return e;
        }
        e = cell_of(es, e, ENTRY_NEXT);
    }
    e
}

// Writes entry e.
fn put(
    es: &mut [u16],
    e: usize,
    key: u16,
    name: usize,
    size: usize,
    base: usize,
    extent: usize,
    wrappers: u32,
    next: usize,
    meant: usize,
)
    requires { Roomy es.old (suc e) × (name ≤ most_table) × (size ≤ most_table) × (base ≤ most_table) × (extent ≤ most_table) × (wrappers < pack_limit) × (next ≤ room_entries) × (meant ≤ no_type) }
    ensures { Put es.old es.new e key name size base extent wrappers next meant }
{
    let i = CELLS_BEFORE + CELLS_EACH * e;
    es[i + ENTRY_KEY] = key;
    es[i + ENTRY_NAME] = name as u16;
    es[i + ENTRY_SIZE] = size as u16;
    es[i + ENTRY_BASE] = base as u16;
    es[i + ENTRY_EXTENT] = extent as u16;
    es[i + ENTRY_WRAPPERS] = wrappers as u16;
    es[i + ENTRY_NEXT] = next as u16;
    es[i + ENTRY_MEANT] = meant as u16;
}

// What stands for the number of a definition where a name means a built-in scalar, or no type.
const BUILT_IN: usize = 256;

const NO_TYPE: usize = 257;

// The number of the definition that the table's n bytes from `at` on mean; BUILT_IN or NO_TYPE if it is none of the table's.
fn number_of(t: &[u8], book: &[u32], at: usize, n: usize) -> usize
    requires { Booked t.now book.now × (at + n ≤ length t.now) }
    ensures { Means t.now book.now (part t.now at n) result × (result ≤ no_type) }
{
    if table_types::is_built_in(t, at, n) {
        return BUILT_IN;
    }
    let k = table_types::first_type(t, book, t, at, n);
    if k < table_book::count_of(book) {
        return k;
    }
    NO_TYPE
}

// What a member or argument says of itself: where its name and its base's name lie, its wrappers, from where on its arguments stand.
#[derive(Clone, Copy)]
pub struct Header {
    pub name: usize,
    pub size: usize,
    pub base: usize,
    pub extent: usize,
    pub wrappers: u32,
    pub from: usize,
}

// The header of a content that begins with a name and a reference; none if it begins otherwise.
fn quick_header(t: &[u8], start: usize, end: usize) -> Option<Header>
    requires { Bounds t.now start end }
    ensures { QuickRead t.now start end result }
{
    let f = table_fields::read_field(t, start, end)?;
    if f.tag != TAG_NAME {
        return None;
    }
    let g = table_fields::read_field(t, f.end, end)?;
    if g.tag != TAG_REFERENCE {
        return None;
    }
    let r = table_fields::read_reference(t, g.start, g.end)?;
    Some(Header {
        name: f.start,
        size: f.end - f.start,
        base: r.start,
        extent: r.end - r.start,
        wrappers: r.wrappers,
        from: g.end,
    })
}

// The header of any member or argument.
fn slow_header(t: &[u8], tag: u8, start: usize, end: usize) -> Header
    requires { Bounds t.now start end }
    ensures { HeaderRead t.now tag start end result.name result.size result.base result.extent result.wrappers result.from }
{
    let m = table_members::member_name(t, tag, start, end);
    let r = table_members::member_type(t, tag, start, end);
    let from = table_members::arguments_from(t, tag, start, end);
    Header {
        name: m.at,
        size: m.size,
        base: r.at,
        extent: r.size,
        wrappers: r.wrappers,
        from: from,
    }
}

// The header of the member or argument with this tag and content.
fn read_header(t: &[u8], tag: u8, start: usize, end: usize) -> Header
    requires { Bounds t.now start end }
    ensures { HeaderRead t.now tag start end result.name result.size result.base result.extent result.wrappers result.from }
{
    let Some(h) = quick_header(t, start, end) else {
        return slow_header(t, tag, start, end);
    };
    if tag == TAG_FIELD {
        return h;
    }
    if tag == TAG_ARGUMENT {
        return Header { from: end, ..h };
    }
    slow_header(t, tag, start, end)
}

// Enters what a header says as entry e, with `next` beside it.
fn enter_header(t: &[u8], book: &[u32], es: &mut [u16], e: usize, next: usize, h: Header)
    requires { Booked t.now book.now × Roomy es.old (suc e) × (next ≤ room_entries) × (h.name + h.size ≤ length t.now) × (h.base + h.extent ≤ length t.now) × (h.wrappers < pack_limit) }
    ensures { HeaderEntered t.now book.now es.old es.new e next h.name h.size h.base h.extent h.wrappers }
{
    let key = key_of(t, h.name, h.size);
    let meant = number_of(t, book, h.base, h.extent);
    put(
        es, e, key, h.name, h.size, h.base, h.extent, h.wrappers, next, meant,
    );
}

// Enters the member or argument with this tag and content as entry e, with `next` beside it.
fn enter(
    t: &[u8],
    book: &[u32],
    es: &mut [u16],
    e: usize,
    next: usize,
    tag: u8,
    start: usize,
    end: usize,
)
    requires { Bounds t.now start end × Booked t.now book.now × Roomy es.old (suc e) × (next ≤ room_entries) }
    ensures { Entering t.now book.now es.old es.new e next (member_from t.now tag start end).name (member_from t.now tag start end).type }
{
    let h = read_header(t, tag, start, end);
    enter_header(t, book, es, e, next, h);
}

// Enters the arguments from `from` up to `end`; one past the last.
fn enter_arguments(
    t: &[u8],
    book: &[u32],
    es: &mut [u16],
    e: usize,
    from: usize,
    end: usize,
) -> usize
    requires { Bounds t.now from end × Booked t.now book.now × Roomy es.old (e + length (arguments_in t.now from end)) }
    ensures { ArgumentsWritten t.now book.now es.old es.new e result (arguments_in t.now from end) }
{
    let mut i = from;
    let mut k = e;
    loop {
        let Some(f) = table_members::next_argument(t, i, end) else {
            return k;
        };
        enter(t, book, es, k, k + 1, TAG_ARGUMENT, f.start, f.end);
        k += 1;
        i = f.end;
    }
}

// Enters the member with this tag and content, and its arguments; one past the last.
fn enter_member(
    t: &[u8],
    book: &[u32],
    es: &mut [u16],
    e: usize,
    tag: u8,
    start: usize,
    end: usize,
) -> usize
    requires { Bounds t.now start end × Booked t.now book.now × Roomy es.old (e + 1 + length (member_from t.now tag start end).arguments) }
    ensures { MemberWritten t.now book.now es.old es.new e result (member_from t.now tag start end) }
{
    let h = read_header(t, tag, start, end);
    let next = enter_arguments(t, book, es, e + 1, h.from, end);
    enter_header(t, book, es, e, next, h);
    next
}

// Enters the members from `from` up to `end`; one past the last.
fn enter_members(t: &[u8], book: &[u32], es: &mut [u16], e: usize, from: usize, end: usize) -> usize
    requires { Bounds t.now from end × Booked t.now book.now × Roomy es.old (e + entries_of (members_in t.now from end)) }
    ensures { MembersWritten t.now book.now es.old es.new e result (members_in t.now from end) }
{
    let mut i = from;
    let mut k = e;
    loop {
        let Some(f) = table_members::next_member(t, i, end) else {
            return k;
        };
        k = enter_member(t, book, es, k, f.tag, f.start, f.end);
        i = f.end;
    }
}

// Have the members of a definition of this kind types?
pub fn has_types(kind: u32) -> bool
    ensures { result ≡ has_types kind }
{
    if kind < RECORD_OBJECT {
        return false;
    }
    if kind <= RECORD_INTERFACE {
        return true;
    }
    if kind < RECORD_INPUT_OBJECT {
        return false;
    }
    kind <= RECORD_DIRECTIVE
}

// Enters the members of definition i; one past the last entry.
fn enter_definition(t: &[u8], book: &[u32], es: &mut [u16], i: usize, e: usize) -> usize
    requires { Booked t.now book.now × (i < count_in book.now) × Roomy es.old (e + entries_in (definition_on t.now i)) }
    ensures { DefinitionWritten t.now book.now es.old es.new e result (definition_on t.now i) }
{
    if !has_types(table_book::kind_of(book, i)) {
        return e;
    }
    let start = table_book::start_of(book, i);
    let end = table_book::end_of(book, i);
    enter_members(t, book, es, e, start, end)
}

// Makes the entries of a table.
pub fn fill_entries(t: &[u8], book: &[u32], es: &mut [u16])
    requires { Enterable t.now book.now es.old }
    ensures { Entered t.now book.now es.new }
{
    let count = table_book::count_of(book);
    es[0] = 0;
    let mut e = 0;
    for i in 0..count {
        e = enter_definition(t, book, es, i, e);
        es[i + 1] = e as u16;
    }
}

// Where the entries of definition i begin; those of the one before it end there.
pub fn first_of(es: &[u16], i: usize) -> usize
    requires { (cells_before ≤ length es.now) × (i ≤ room) }
    ensures { result ≡ first_of es.now i }
{
    wide(es[i])
}

// The entry of definition i's first member whose name is the n bytes of s from `at` on; NO_ENTRY if there is none.
pub fn find_member(
    t: &[u8],
    book: &[u32],
    es: &[u16],
    i: usize,
    s: &[u8],
    at: usize,
    n: usize,
) -> usize
    requires { Booked t.now book.now × Entered t.now book.now es.now × (i < count_in book.now) × (has_types (definition_on t.now i).tag ≡ true) × (at + n ≤ length s.now) }
    ensures { Hit t.now book.now es.now room_entries (part s.now at n) (definition_on t.now i).members result }
{
    let end = first_of(es, i + 1);
    let from = first_of(es, i);
    let e = find(t, book, es, from, end, s, at, n);
    if e < end {
        return e;
    }
    NO_ENTRY
}

// The entry of the first argument, of the member with entry e, whose name is the n bytes of s from `at` on; NO_ENTRY if there is none.
pub fn find_argument(
    t: &[u8],
    book: &[u32],
    es: &[u16],
    e: usize,
    s: &[u8],
    at: usize,
    n: usize,
) -> usize
    requires { MemberStands t.now book.now es.now e × (at + n ≤ length s.now) }
    ensures { ArgumentAnswer t.now book.now es.now e (part s.now at n) result }
{
    let end = cell_of(es, e, ENTRY_NEXT);
    let k = find(t, book, es, e + 1, end, s, at, n);
    if k < end {
        return k;
    }
    NO_ENTRY
}

// The type of entry e: where its base's name lies, and its wrappers.
pub fn type_of(es: &[u16], e: usize) -> TypeRead
    requires { Roomy es.now (suc e) }
    ensures { TypeAnswer es.now e result.at result.size result.wrappers }
{
    TypeRead {
        at: cell_of(es, e, ENTRY_BASE),
        size: cell_of(es, e, ENTRY_EXTENT),
        wrappers: wide_half(es[CELLS_BEFORE + CELLS_EACH * e + ENTRY_WRAPPERS]),
    }
}

// The number of the definition that the base of entry e's type means; at least the count if it is none of the table's.
pub fn meant_by(es: &[u16], e: usize) -> usize
    requires { Roomy es.now (suc e) }
    ensures { MeantAnswer es.now e result }
{
    cell_of(es, e, ENTRY_MEANT)
}

// The tag of the type that the base of entry e's type means: 0 of no type.
pub fn kind_by(book: &[u32], es: &[u16], e: usize) -> u32
    requires { (length book.now ≡ book_size) × (count_in book.now ≤ room) × Roomy es.now (suc e) }
    ensures { KindAnswer book.now es.now e result }
{
    let k = cell_of(es, e, ENTRY_MEANT);
    if k == BUILT_IN {
        return RECORD_SCALAR;
    }
    table_types::kind_in(book, k)
}

// Has no entry from `from` up to e the name of entry e?
pub fn is_new(t: &[u8], book: &[u32], es: &[u16], from: usize, e: usize) -> bool
    requires { Here t.now book.now es.now from e }
    ensures { NewAnswer t.now book.now es.now from e result }
{
    let x = find(t, book, es, from, e, t, name_at(es, e), size_at(es, e));
    x == e
}
