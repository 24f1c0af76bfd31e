// The rows right below an object's, a list's or a field's: the first and the next of them, the first entry whose name an earlier one has,
// the first of a name that nothing due has, the entry of a name; and what a content makes due, one by one.
#![tactic(auto)]

ghost use Rattle.std.specs.Prelude.{◌≡◌, ◌&&◌, not, [], ℕ, ◌+◌, ◌-◌, ◌≤◌, ◌<◌, length};
ghost use Rattle.paper.specs.Tokens.{same};
ghost use Rattle.paper_table.specs.Lists.{any_of};
ghost use Rattle.paper_table.specs.Types.{argument_named};
ghost use Rattle.paper_query.specs.Constructs.{name_of};
ghost use Rattle.table_fields.specs.Fields.{Bounds};
ghost use Rattle.table_book.specs.Book.{part};
ghost use Rattle.table_members.specs.Members.{arguments_in};
ghost use Rattle.query_rows.specs.Rowed.{row_in, doc_of, Rowed};
ghost use Rattle.paper_values.specs.Values.{Value};
ghost use Rattle.paper_values.specs.Coercion.{heads, repeated_entry, unknown_entry};
ghost use Rattle.paper_values.specs.RowValues.{entries_from};
ghost use Rattle.value_entries.specs.Entered.{Treed, is_entry, names_before, entry_at, child_at, due_named, dues_by, NextDue, Marks};

use paper::KIND_ARGUMENT;
use paper_table::TAG_ARGUMENT;
use query_subtrees::past_of;
use table_fields::Field;

// The first row right below row h; n if there is none.
pub fn first_child(s: &[u8], rows: &[u32], n: usize, past: &[u32], h: usize) -> usize
    requires { Treed s.now rows.now n past.now × (h < n) }
    ensures { result ≡ child_at (doc_of s.now rows.now n) h (n - (h + 1)) (h + 1) }
{
    let c = h + 1;
    if c < past_of(rows, n, past, h) {
        return c;
    }
    n
}

// The next row right below row h behind its child c, whose own subtree is hopped over; n if there is none.
pub fn next_child(s: &[u8], rows: &[u32], n: usize, past: &[u32], h: usize, c: usize) -> usize
    requires { Treed s.now rows.now n past.now × (h < n) × (c < n) × ((row_in rows.now n c).parent ≡ h) }
    ensures { result ≡ child_at (doc_of s.now rows.now n) h (n - (c + 1)) (c + 1) }
{
    let k = past_of(rows, n, past, c);
    if k < past_of(rows, n, past, h) {
        return k;
    }
    n
}

// Is row c an entry of this kind right below row h?
fn is_entry(s: &[u8], rows: &[u32], n: usize, h: usize, kind: u32, c: usize) -> bool
    requires { Rowed s.now rows.now n }
    ensures { result ≡ is_entry (doc_of s.now rows.now n) kind h c }
{
    if query_rows::parent_of(rows, n, c) as usize != h {
        return false;
    }
    query_rows::kind_of(rows, n, c) == kind
}

// Is row j such an entry, with the name of row c?
fn is_twin(s: &[u8], rows: &[u32], n: usize, h: usize, kind: u32, c: usize, j: usize) -> bool
    requires { Rowed s.now rows.now n }
    ensures { result ≡ is_entry (doc_of s.now rows.now n) kind h j && same (name_of (doc_of s.now rows.now n) c) (name_of (doc_of s.now rows.now n) j) }
{
    if !is_entry(s, rows, n, h, kind, j) {
        return false;
    }
    query_rows::same_names(s, rows, n, c, j)
}

// Has an entry before row c its name?
fn is_seen(s: &[u8], rows: &[u32], n: usize, past: &[u32], h: usize, kind: u32, c: usize) -> bool
    requires { Treed s.now rows.now n past.now × (h < c) × (c < n) }
    ensures { result ≡ any_of (same (name_of (doc_of s.now rows.now n) c)) (names_before (doc_of s.now rows.now n) kind h (c - (h + 1))) }
{
    let mut j = first_child(s, rows, n, past, h);
    while j < c {
        if is_twin(s, rows, n, h, kind, c, j) {
            return true;
        }
        j = next_child(s, rows, n, past, h, j);
    }
    false
}

// Is row c an entry whose name an earlier one has?
fn is_repeated(
    s: &[u8],
    rows: &[u32],
    n: usize,
    past: &[u32],
    h: usize,
    kind: u32,
    c: usize,
) -> bool
    requires { Treed s.now rows.now n past.now × (h < c) × (c < n) }
    ensures { result ≡ is_entry (doc_of s.now rows.now n) kind h c && any_of (same (name_of (doc_of s.now rows.now n) c)) (names_before (doc_of s.now rows.now n) kind h (c - (h + 1))) }
{
    if !is_entry(s, rows, n, h, kind, c) {
        return false;
    }
    is_seen(s, rows, n, past, h, kind, c)
}

// The first entry whose name an earlier one has; n if there is none.
pub fn first_repeated(s: &[u8], rows: &[u32], n: usize, past: &[u32], h: usize, kind: u32) -> usize
    requires { Treed s.now rows.now n past.now × (h < n) }
    ensures { (text : ℕ) (read : ℕ → Value) → Marks n text (repeated_entry [] (heads (entries_from text (doc_of s.now rows.now n) read kind h (n - (h + 1)) (h + 1)))) result }
{
    let mut c = first_child(s, rows, n, past, h);
    while c < n {
        if is_repeated(s, rows, n, past, h, kind, c) {
            return c;
        }
        c = next_child(s, rows, n, past, h, c);
    }
    n
}

// Has the field with this content an argument whose name is the l bytes of s from `at` on?
fn has_argument(t: &[u8], start: usize, end: usize, s: &[u8], at: usize, l: usize) -> bool
    requires { Bounds t.now start end × (at + l ≤ length s.now) }
    ensures { result ≡ any_of (argument_named (part s.now at l)) (arguments_in t.now start end) }
{
    table_members::find_argument(t, start, end, s, at, l).is_some()
}

// Does this content make due, for entries of this kind, something whose name is the l bytes of s from `at` on?
fn has_due(t: &[u8], start: usize, end: usize, kind: u32, s: &[u8], at: usize, l: usize) -> bool
    requires { Bounds t.now start end × (at + l ≤ length s.now) }
    ensures { result ≡ any_of (due_named (part s.now at l)) (dues_by kind t.now start end) }
{
    if kind == KIND_ARGUMENT {
        return has_argument(t, start, end, s, at, l);
    }
    table_types::has_member(t, start, end, s, at, l)
}

// The next that this content makes due, from `at` on, for entries of this kind: an argument, or a member; none if there is no more.
pub fn next_due(t: &[u8], at: usize, end: usize, kind: u32) -> Option<Field>
    requires { Bounds t.now at end }
    ensures { NextDue kind t.now at end result }
{
    if kind != KIND_ARGUMENT {
        return table_members::next_member(t, at, end);
    }
    let f = table_members::next_argument(t, at, end)?;
    Some(Field {
        tag: TAG_ARGUMENT,
        start: f.start,
        end: f.end,
    })
}

// Is row c an entry of a name that nothing has that this content makes due?
fn is_unknown(
    t: &[u8],
    start: usize,
    end: usize,
    s: &[u8],
    rows: &[u32],
    n: usize,
    h: usize,
    kind: u32,
    c: usize,
) -> bool
    requires { Bounds t.now start end × Rowed s.now rows.now n }
    ensures { result ≡ is_entry (doc_of s.now rows.now n) kind h c && not (any_of (due_named (name_of (doc_of s.now rows.now n) c)) (dues_by kind t.now start end)) }
{
    if !is_entry(s, rows, n, h, kind, c) {
        return false;
    }
    let at = query_rows::name_of(rows, n, c) as usize;
    let l = query_rows::size_of(rows, n, c) as usize;
    if has_due(t, start, end, kind, s, at, l) {
        return false;
    }
    true
}

// The first entry of a name that nothing has that this content makes due; n if there is none.
pub fn first_unknown(
    t: &[u8],
    start: usize,
    end: usize,
    s: &[u8],
    rows: &[u32],
    n: usize,
    past: &[u32],
    h: usize,
    kind: u32,
) -> usize
    requires { Bounds t.now start end × Treed s.now rows.now n past.now × (h < n) }
    ensures { (text : ℕ) (read : ℕ → Value) → Marks n text (unknown_entry (dues_by kind t.now start end) (heads (entries_from text (doc_of s.now rows.now n) read kind h (n - (h + 1)) (h + 1)))) result }
{
    let mut c = first_child(s, rows, n, past, h);
    while c < n {
        if is_unknown(t, start, end, s, rows, n, h, kind, c) {
            return c;
        }
        c = next_child(s, rows, n, past, h, c);
    }
    n
}

// Is row c an entry whose name is the l bytes of t from `at` on?
fn is_named(
    s: &[u8],
    rows: &[u32],
    n: usize,
    h: usize,
    kind: u32,
    c: usize,
    t: &[u8],
    at: usize,
    l: usize,
) -> bool
    requires { Rowed s.now rows.now n × (at + l ≤ length t.now) }
    ensures { result ≡ is_entry (doc_of s.now rows.now n) kind h c && same (name_of (doc_of s.now rows.now n) c) (part t.now at l) }
{
    if !is_entry(s, rows, n, h, kind, c) {
        return false;
    }
    query_rows::is_called(s, rows, n, c, t, at, l)
}

// The first entry whose name is the l bytes of t from `at` on; n if there is none.
pub fn find_entry(
    s: &[u8],
    rows: &[u32],
    n: usize,
    past: &[u32],
    h: usize,
    kind: u32,
    t: &[u8],
    at: usize,
    l: usize,
) -> usize
    requires { Treed s.now rows.now n past.now × (h < n) × (at + l ≤ length t.now) }
    ensures { result ≡ entry_at (doc_of s.now rows.now n) kind h (part t.now at l) (n - (h + 1)) (h + 1) }
{
    let mut c = first_child(s, rows, n, past, h);
    while c < n {
        if is_named(s, rows, n, h, kind, c, t, at, l) {
            return c;
        }
        c = next_child(s, rows, n, past, h, c);
    }
    c
}
