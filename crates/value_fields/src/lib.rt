// Whether a row is a field that an operation reaches, and where that field's arguments stand in the table.
// A row in the operation itself is told by its owner alone; spreads are searched only for the others.
// All of it is scratch, made with room for few rows where there are few: less is cleared then.
#![tactic(auto)]

ghost use Rattle.std.specs.Prelude.{◌≡◌, true, ◌+◌, ◌≤◌, ◌<◌, length, replicate};
ghost use Rattle.paper_table.specs.Types.{table_of};
ghost use Rattle.paper_query.specs.Enclosing.{field_of, or_missing, field_named, type_inside, enclosing, field_at};
ghost use Rattle.paper_query.proofs.EnclosingLaws.{Composite};
ghost use Rattle.paper_query.specs.Reaching.{Reaches};
ghost use Rattle.table_fields.specs.Fields.{Bounds};
ghost use Rattle.table_book.specs.Book.{part};
ghost use Rattle.table_types.specs.Booked.{Booked};
ghost use Rattle.query_rows.specs.Rowed.{row_in, doc_of, Rowed, Decides, room_of};
ghost use Rattle.query_links.specs.Links.{firsts_size, kinds_size};
ghost use Rattle.query_spreads.specs.Owners.{Defines, Owned};
ghost use Rattle.query_types.specs.Coded.{type_coded, TypeKnown};
ghost use Rattle.query_fields.specs.Kept.{Fielded};
ghost use Rattle.query_inside.specs.Enclosed.{encloses, Asked};
ghost use Rattle.value_fields.specs.Wants.{Known, Contains, ContentTyped, Holds, Prepared, Wants};

use paper::KIND_FIELD;
use paper_table::TAG_UNION;
use query_links::{FEW_ROWS, FIRSTS, KINDS, ROWS};
use query_rows::{kind_of, name_of, parent_of, size_of};
use query_types::NO_TYPE;

// A part of the table: a member's content. Of a field that is no member it is empty, and begins at 0.
#[derive(Clone, Copy)]
pub struct Span {
    pub start: usize,
    pub end: usize,
}

// Does the operation reach row i? By a search over spreads, where the definition of each row is known.
fn search_spreads(
    s: &[u8],
    rows: &[u32],
    n: usize,
    owner: &[u16],
    firstk: &mut [u16],
    nextk: &mut [u16],
    target: &mut [u16],
    first: &mut [u16],
    next: &mut [u16],
    mark: &mut [u16],
    stack: &mut [u16],
    op: usize,
    i: usize,
) -> bool
    requires { Rowed s.now rows.now n × Owned (doc_of s.now rows.now n) owner.now × (length firstk.old ≡ kinds_size) × (length nextk.old ≡ room_of n) × (length target.old ≡ room_of n) × (length first.old ≡ room_of n) × (length next.old ≡ room_of n) × (mark.old ≡ replicate (room_of n) 0) × (length stack.old ≡ room_of n) × Defines (doc_of s.now rows.now n) op × (i < n) }
    ensures { Decides result (Reaches (doc_of s.now rows.now n) op i) }
{
    query_links::kinds(rows, n, firstk, nextk);
    query_spreads::targets(s, rows, n, firstk, nextk, target);
    query_spreads::spreads(s, rows, n, owner, first, next);
    query_reach::reach(s, rows, n, target, first, next, mark, stack, op);
    query_reach::reaches(s, rows, n, owner, mark, op, i)
}

// The same: most often the row stands in the operation itself, and nothing is searched.
fn reach_with(
    s: &[u8],
    rows: &[u32],
    n: usize,
    owner: &mut [u16],
    firstk: &mut [u16],
    nextk: &mut [u16],
    target: &mut [u16],
    first: &mut [u16],
    next: &mut [u16],
    mark: &mut [u16],
    stack: &mut [u16],
    op: usize,
    i: usize,
) -> bool
    requires { Rowed s.now rows.now n × (length owner.old ≡ room_of n) × (length firstk.old ≡ kinds_size) × (length nextk.old ≡ room_of n) × (length target.old ≡ room_of n) × (length first.old ≡ room_of n) × (length next.old ≡ room_of n) × (mark.old ≡ replicate (room_of n) 0) × (length stack.old ≡ room_of n) × Defines (doc_of s.now rows.now n) op × (i < n) }
    ensures { Decides result (Reaches (doc_of s.now rows.now n) op i) }
{
    query_spreads::owners(s, rows, n, owner);
    if query_links::link_of(owner, i) == op {
        return true;
    }
    search_spreads(
        s, rows, n, owner, firstk, nextk, target, first, next, mark, stack, op, i,
    )
}

// The same in lists of this length: few for few rows, so that little is cleared.
fn reach_in<const ROOM: usize>(s: &[u8], rows: &[u32], n: usize, op: usize, i: usize) -> bool
    requires { Rowed s.now rows.now n × Defines (doc_of s.now rows.now n) op × (i < n) × (ROOM ≡ room_of n) }
    ensures { Decides result (Reaches (doc_of s.now rows.now n) op i) }
{
    let mut owner = [0u16; ROOM];
    let mut firstk = [0u16; KINDS];
    let mut nextk = [0u16; ROOM];
    let mut target = [0u16; ROOM];
    let mut first = [0u16; ROOM];
    let mut next = [0u16; ROOM];
    let mut mark = [0u16; ROOM];
    let mut stack = [0u16; ROOM];
    reach_with(
        s,
        rows,
        n,
        &mut owner,
        &mut firstk,
        &mut nextk,
        &mut target,
        &mut first,
        &mut next,
        &mut mark,
        &mut stack,
        op,
        i,
    )
}

// Does the operation reach row i?
fn is_reached(s: &[u8], rows: &[u32], n: usize, op: usize, i: usize) -> bool
    requires { Rowed s.now rows.now n × Defines (doc_of s.now rows.now n) op × (i < n) }
    ensures { Decides result (Reaches (doc_of s.now rows.now n) op i) }
{
    if n <= FEW_ROWS {
        return reach_in::<FEW_ROWS>(s, rows, n, op, i);
    }
    reach_in::<ROWS>(s, rows, n, op, i)
}

// The content of the field of a name, of the object or interface that is definition k; a union has none.
fn find_content(t: &[u8], book: &[u32], k: usize, s: &[u8], at: usize, n: usize) -> Span
    requires { Booked t.now book.now × Fielded (table_of t.now) × Composite (table_of t.now) k × (at + n ≤ length s.now) }
    ensures { Contains t.now (or_missing (field_of (table_of t.now) k (part s.now at n))) result.start result.end }
{
    if table_book::kind_of(book, k) == TAG_UNION as u32 {
        return Span { start: 0, end: 0 };
    }
    let Some(f) = table_members::find_member(
        t,
        table_book::start_of(book, k),
        table_book::end_of(book, k),
        s,
        at,
        n,
    ) else {
        return Span { start: 0, end: 0 };
    };
    Span {
        start: f.start,
        end: f.end,
    }
}

// The content of the field of a name in the type `above`.
fn content_in(t: &[u8], book: &[u32], above: u16, s: &[u8], at: usize, n: usize) -> Span
    requires { Booked t.now book.now × Fielded (table_of t.now) × TypeKnown (table_of t.now) above × (at + n ≤ length s.now) }
    ensures { Contains t.now (field_named (table_of t.now) (type_coded above) (part s.now at n)) result.start result.end }
{
    if above == NO_TYPE {
        return Span { start: 0, end: 0 };
    }
    if query_fields::is_typename(s, at, n) {
        return Span { start: 0, end: 0 };
    }
    find_content(t, book, above as usize - 1, s, at, n)
}

// The type that the selections of the field with this content are of.
fn content_type(t: &[u8], book: &[u32], start: usize, end: usize) -> u16
    requires { Booked t.now book.now × Bounds t.now start end }
    ensures { ContentTyped t.now start end result }
{
    if start == 0 {
        return NO_TYPE;
    }
    let m = table_members::type_in(t, start, end);
    query_types::composite(t, book, t, m.at, m.size)
}

// The content of the field of row i, where `above` is the type around it.
fn content_at(
    t: &[u8],
    book: &[u32],
    s: &[u8],
    rows: &[u32],
    n: usize,
    i: usize,
    above: u16,
) -> Span
    requires { Booked t.now book.now × Fielded (table_of t.now) × Rowed s.now rows.now n × (enclosing (table_of t.now) (doc_of s.now rows.now n) i ≡ type_coded above) }
    ensures { Contains t.now (field_at (table_of t.now) (doc_of s.now rows.now n) i) result.start result.end }
{
    let at = name_of(rows, n, i) as usize;
    let size = size_of(rows, n, i) as usize;
    content_in(t, book, above, s, at, size)
}

// The type inside row i, where that around it is `above`.
fn type_from(
    t: &[u8],
    book: &[u32],
    s: &[u8],
    rows: &[u32],
    n: usize,
    first: &[u16],
    next: &[u16],
    i: usize,
    above: u16,
) -> u16
    requires { Asked t.now book.now s.now rows.now n first.now next.now × Fielded (table_of t.now) × (i < n) × (encloses (row_in rows.now n i).kind ≡ true) × (enclosing (table_of t.now) (doc_of s.now rows.now n) i ≡ type_coded above) }
    ensures { type_coded result ≡ type_inside (table_of t.now) (doc_of s.now rows.now n) i }
{
    if kind_of(rows, n, i) == KIND_FIELD {
        let c = content_at(t, book, s, rows, n, i, above);
        return content_type(t, book, c.start, c.end);
    }
    query_inside::other_type(t, book, s, rows, n, first, next, i, above)
}

// The type inside row i, by those inside the rows that it stands in.
fn type_inside(
    t: &[u8],
    book: &[u32],
    s: &[u8],
    rows: &[u32],
    n: usize,
    first: &[u16],
    next: &[u16],
    i: usize,
) -> u16
    requires { Asked t.now book.now s.now rows.now n first.now next.now × Fielded (table_of t.now) }
    ensures { type_coded result ≡ type_inside (table_of t.now) (doc_of s.now rows.now n) i }
{
    if !query_inside::encloses(kind_of(rows, n, i)) {
        return NO_TYPE;
    }
    let p = parent_of(rows, n, i) as usize;
    if i <= p {
        return type_from(t, book, s, rows, n, first, next, i, NO_TYPE);
    }
    let above = type_inside(t, book, s, rows, n, first, next, p);
    type_from(t, book, s, rows, n, first, next, i, above)
}

// The content with the arguments of the field of row i.
fn content_with(
    t: &[u8],
    book: &[u32],
    s: &[u8],
    rows: &[u32],
    n: usize,
    first: &mut [u16],
    next: &mut [u16],
    i: usize,
) -> Span
    requires { Known t.now × Booked t.now book.now × Rowed s.now rows.now n × (length first.old ≡ firsts_size) × (length next.old ≡ room_of n) }
    ensures { Holds t.now (field_at (table_of t.now) (doc_of s.now rows.now n) i) result.start result.end }
{
    query_links::families(s, rows, n, first, next);
    let p = parent_of(rows, n, i) as usize;
    let above = type_inside(t, book, s, rows, n, first, next, p);
    content_at(t, book, s, rows, n, i, above)
}

// The same in lists of this length: few for few rows, so that little is cleared.
fn content_sized<const ROOM: usize>(
    t: &[u8],
    book: &[u32],
    s: &[u8],
    rows: &[u32],
    n: usize,
    i: usize,
) -> Span
    requires { Known t.now × Booked t.now book.now × Rowed s.now rows.now n × (ROOM ≡ room_of n) }
    ensures { Holds t.now (field_at (table_of t.now) (doc_of s.now rows.now n) i) result.start result.end }
{
    let mut first = [0u16; FIRSTS];
    let mut next = [0u16; ROOM];
    content_with(t, book, s, rows, n, &mut first, &mut next, i)
}

// The content with the arguments of the field of row i.
fn content_of(t: &[u8], book: &[u32], s: &[u8], rows: &[u32], n: usize, i: usize) -> Span
    requires { Known t.now × Booked t.now book.now × Rowed s.now rows.now n }
    ensures { Holds t.now (field_at (table_of t.now) (doc_of s.now rows.now n) i) result.start result.end }
{
    if n <= FEW_ROWS {
        return content_sized::<FEW_ROWS>(t, book, s, rows, n, i);
    }
    content_sized::<ROWS>(t, book, s, rows, n, i)
}

// Where the arguments of the field of a row, of any number, stand in the table: the content that they are in.
// None where the row is no field that the operation of row op reaches.
pub fn find_wanted(
    t: &[u8],
    book: &[u32],
    s: &[u8],
    rows: &[u32],
    n: usize,
    op: usize,
    row: usize,
) -> Option<Span>
    requires { Prepared t.now book.now s.now rows.now n op }
    ensures { Wants t.now (doc_of s.now rows.now n) op row result }
{
    if kind_of(rows, n, row) != KIND_FIELD {
        return None;
    }
    if !is_reached(s, rows, n, op, row) {
        return None;
    }
    Some(content_of(t, book, s, rows, n, row))
}
