// Coerces the value of a row at a type into the lent buffer, or refuses a row with a reason; and the entries of an object, or the arguments
// of a field, where they are due. A variable is coerced anew at each of its places: its value stands in the document or in the variables text.
#![tactic(auto)]

ghost use Rattle.std.specs.Prelude.{◌≡◌, true, ℕ, ◌≤◌, ◌<◌};
ghost use Rattle.std.proofs.Math.Option.{some};
ghost use Rattle.paper_table.specs.Lists.{all_of};
ghost use Rattle.paper_table.specs.References.{Ref};
ghost use Rattle.paper_query.specs.Constructs.{name_of};
ghost use Rattle.table_fields.specs.Fields.{Bounds};
ghost use Rattle.table_fields.specs.Wrappers.{pack_of};
ghost use Rattle.table_members.specs.Members.{member_from};
ghost use Rattle.query_rows.specs.Rowed.{row_in, doc_of};
ghost use Rattle.paper_values.specs.Kinds.{due_of};
ghost use Rattle.paper_values.specs.Values.{Tree, Pairs};
ghost use Rattle.paper_values.specs.Coercion.{value_in};
ghost use Rattle.value_writing.specs.Writing.{Room};
ghost use Rattle.value_kinds.specs.Dues.{DueIs, Fits, Told};
ghost use Rattle.value_tokens.specs.Spans.{takes_fields};
ghost use Rattle.value_entries.specs.Entered.{dues_by};
ghost use Rattle.value_held.specs.Given.{Ready, Vars, coerced, ToldPairs};
ghost use Rattle.value_coerce.specs.Coercing.{Meant, Alone, slim_due, listed, stood, objected, stepped};
ghost use Rattle.value_held.specs.Holding.{Kept, Holds, Holding};

use paper::{KIND_LIST, KIND_NULL, KIND_OBJECT_FIELD, KIND_VARIABLE, WRAP_BASE, WRAP_LIST};
use paper_table::TAG_NAME;
use paper_values::{REASON_KIND, REASON_REPEATED, REASON_UNKNOWN, TAG_INPUT, TAG_LIST, TAG_PAIR};
use value_entries::{first_child, next_child, next_due};
use value_held::{
    HELD_ROW, HELD_TEXT, cell_of, due_held, find_again, find_alien, given, held_at, is_null,
    lacking,
};
use value_kinds::{Due, RefusedRow, due_of, of_leaf, put_nothing};
use value_ones::{close_ones, lists_in, nullable};
use value_tokens::{put_base, takes_fields};
use value_writing::{close, place, put_field};

// The text that is the document itself; any other number is the variables text.
pub const TEXT_DOCUMENT: u32 = 0;

// The levels that values can stand in one another, and one.
pub const ALL_LEVELS: usize = 33;

// Writes the value of row i at the type that is due, with k levels left. The variables are coerced already; `many` is 0 where none has a value.
// The place past what was written, or Err with the row of this text that is refused.
#[cycle(bare_field_input_list_object_put_kept_single_value_variable)]
pub fn value(
    t: &[u8],
    book: &[u32],
    s: &[u8],
    rows: &[u32],
    n: usize,
    past: &[u32],
    i: usize,
    k: usize,
    due: Due,
    s1: &[u8],
    rows1: &[u32],
    n1: usize,
    past1: &[u32],
    held: &[u32],
    many: usize,
    out: &mut [u8],
    limit: usize,
    from: usize,
) -> Result<usize, RefusedRow>
    requires { Ready t.now book.now s.now rows.now n past.now × (i ≤ n) × Fits book.now due.sort due.number due.wrappers × Room limit from out.old × Meant t.now book.now due.sort due.number due.wrappers × Holding t.now book.now s.now rows.now n s1.now rows1.now n1 past1.now held.now many }
    ensures { (text : ℕ) (r : Ref) (ps : Pairs) → DueIs t.now book.now r due.sort due.number due.wrappers → Holds t.now book.now s.now rows.now n s1.now rows1.now n1 held.now 0 many ps →
        Told text limit (coerced t.now (value_in ps) text (doc_of s.now rows.now n) k i r) from out.old out.new result }
{
    let w = due.wrappers;
    if k == 0 {
        return put_nothing(out, limit, from, i, w);
    }
    let kind = query_rows::kind_of(rows, n, i);
    if kind == KIND_NULL {
        return put_nothing(out, limit, from, i, w);
    }
    if kind == KIND_VARIABLE {
        return variable(
            t, book, s, rows, n, past, i, w, s1, rows1, n1, past1, held, many, out, limit, from,
        );
    }
    if kind != KIND_LIST {
        return single(
            t, book, s, rows, n, past, i, k, due, s1, rows1, n1, past1, held, many, out, limit,
            from,
        );
    }
    let inside = nullable(w);
    if inside % WRAP_BASE != WRAP_LIST {
        return Err(RefusedRow {
            row: i,
            why: REASON_KIND,
        });
    }
    let items = Due {
        sort: due.sort,
        number: due.number,
        wrappers: inside / WRAP_BASE,
    };
    list(
        t,
        book,
        s,
        rows,
        n,
        past,
        i,
        k - 1,
        items,
        s1,
        rows1,
        n1,
        past1,
        held,
        many,
        out,
        limit,
        from,
    )
}

// Writes what the variable at row i stands for, at a type with these wrappers.
#[cycle(bare_field_input_list_object_put_kept_single_value_variable)]
fn variable(
    t: &[u8],
    book: &[u32],
    s: &[u8],
    rows: &[u32],
    n: usize,
    past: &[u32],
    i: usize,
    wrappers: u32,
    s1: &[u8],
    rows1: &[u32],
    n1: usize,
    past1: &[u32],
    held: &[u32],
    many: usize,
    out: &mut [u8],
    limit: usize,
    from: usize,
) -> Result<usize, RefusedRow>
    requires { Ready t.now book.now s.now rows.now n past.now × Room limit from out.old × Holding t.now book.now s.now rows.now n s1.now rows1.now n1 past1.now held.now many }
    ensures { (text : ℕ) (r : Ref) (ps : Pairs) → pack_of r ≡ wrappers → Holds t.now book.now s.now rows.now n s1.now rows1.now n1 held.now 0 many ps →
        Told text limit (stood t.now (value_in ps) text i r (value_in ps (name_of (doc_of s.now rows.now n) i))) from out.old out.new result }
{
    let v = held_at(s, rows, n, i, held, many);
    if many <= v {
        return put_nothing(out, limit, from, i, wrappers);
    }
    let due = due_held(held, many, v);
    let row = cell_of(held, many, v, HELD_ROW) as usize;
    if cell_of(held, many, v, HELD_TEXT) == TEXT_DOCUMENT {
        return put_kept(
            t, book, s, rows, n, past, row, due, i, wrappers, held, out, limit, from,
        );
    }
    put_kept(
        t, book, s1, rows1, n1, past1, row, due, i, wrappers, held, out, limit, from,
    )
}

// Writes the constant of row `row`, which was coerced at its type, for a variable at row i. Where it is null the type at row i decides, whose
// wrappers are `outer`; where the output is full already nothing is coerced again.
#[cycle(bare_field_input_list_object_put_kept_single_value_variable)]
fn put_kept(
    t: &[u8],
    book: &[u32],
    s: &[u8],
    rows: &[u32],
    n: usize,
    past: &[u32],
    row: usize,
    due: Due,
    i: usize,
    outer: u32,
    held: &[u32],
    out: &mut [u8],
    limit: usize,
    from: usize,
) -> Result<usize, RefusedRow>
    requires { Ready t.now book.now s.now rows.now n past.now × (row ≤ n) × Fits book.now due.sort due.number due.wrappers × Room limit from out.old × Meant t.now book.now due.sort due.number due.wrappers }
    ensures { (vars : Vars) (text there : ℕ) (r ref : Ref) (tree : Tree) → pack_of r ≡ outer → DueIs t.now book.now ref due.sort due.number due.wrappers →
        Kept t.now there (doc_of s.now rows.now n) n row ref tree → Told text limit (stood t.now vars text i r (some tree)) from out.old out.new result }
{
    if is_null(rows, n, row) {
        return put_nothing(out, limit, from, i, outer);
    }
    if limit < from {
        return Ok(from);
    }
    value(
        t, book, s, rows, n, past, row, ALL_LEVELS, due, s, rows, n, past, held, 0, out, limit,
        from,
    )
}

// Writes the value of row i, which is no null, no variable and no list, as a list of one at each depth of the type: the heads' bytes are kept
// free, and the heads put when the value is written, from the inside out.
#[cycle(bare_field_input_list_object_put_kept_single_value_variable)]
fn single(
    t: &[u8],
    book: &[u32],
    s: &[u8],
    rows: &[u32],
    n: usize,
    past: &[u32],
    i: usize,
    k: usize,
    due: Due,
    s1: &[u8],
    rows1: &[u32],
    n1: usize,
    past1: &[u32],
    held: &[u32],
    many: usize,
    out: &mut [u8],
    limit: usize,
    from: usize,
) -> Result<usize, RefusedRow>
    requires { Ready t.now book.now s.now rows.now n past.now × (i ≤ n) × Fits book.now due.sort due.number due.wrappers × Room limit from out.old × Meant t.now book.now due.sort due.number due.wrappers × Holding t.now book.now s.now rows.now n s1.now rows1.now n1 past1.now held.now many × Alone (row_in rows.now n i).kind k }
    ensures { (text : ℕ) (r : Ref) (ps : Pairs) → DueIs t.now book.now r due.sort due.number due.wrappers → Holds t.now book.now s.now rows.now n s1.now rows1.now n1 held.now 0 many ps →
        Told text limit (coerced t.now (value_in ps) text (doc_of s.now rows.now n) k i r) from out.old out.new result }
{
    let m = lists_in(due.wrappers);
    let first = place(limit, from, 3 * m);
    let at = bare(
        t, book, s, rows, n, past, i, k, due, s1, rows1, n1, past1, held, many, out, limit, first,
    )?;
    Ok(close_ones(out, limit, from, m, at))
}

// Writes such a value at the type without its wrappers.
#[cycle(bare_field_input_list_object_put_kept_single_value_variable)]
fn bare(
    t: &[u8],
    book: &[u32],
    s: &[u8],
    rows: &[u32],
    n: usize,
    past: &[u32],
    i: usize,
    k: usize,
    due: Due,
    s1: &[u8],
    rows1: &[u32],
    n1: usize,
    past1: &[u32],
    held: &[u32],
    many: usize,
    out: &mut [u8],
    limit: usize,
    from: usize,
) -> Result<usize, RefusedRow>
    requires { Ready t.now book.now s.now rows.now n past.now × (i ≤ n) × Fits book.now due.sort due.number due.wrappers × Room limit from out.old × Holding t.now book.now s.now rows.now n s1.now rows1.now n1 past1.now held.now many × Alone (row_in rows.now n i).kind k }
    ensures { (text : ℕ) (r : Ref) (ps : Pairs) → DueIs t.now book.now r due.sort due.number 0 → Holds t.now book.now s.now rows.now n s1.now rows1.now n1 held.now 0 many ps →
        Told text limit (coerced t.now (value_in ps) text (doc_of s.now rows.now n) k i r) from out.old out.new result }
{
    let kind = query_rows::kind_of(rows, n, i);
    if takes_fields(kind, due.sort) {
        return input(
            t, book, s, rows, n, past, i, k, due, s1, rows1, n1, past1, held, many, out, limit,
            from,
        );
    }
    let leaf = put_base(
        t, book, s, rows, n, i, due.sort, due.number, out, limit, from,
    );
    of_leaf(i, leaf)
}

// Writes such a value, which is an object, where an input object is due. Apart from the above, so that nothing is handed on for other values.
#[cycle(bare_field_input_list_object_put_kept_single_value_variable)]
fn input(
    t: &[u8],
    book: &[u32],
    s: &[u8],
    rows: &[u32],
    n: usize,
    past: &[u32],
    i: usize,
    k: usize,
    due: Due,
    s1: &[u8],
    rows1: &[u32],
    n1: usize,
    past1: &[u32],
    held: &[u32],
    many: usize,
    out: &mut [u8],
    limit: usize,
    from: usize,
) -> Result<usize, RefusedRow>
    requires { Ready t.now book.now s.now rows.now n past.now × (i ≤ n) × Fits book.now due.sort due.number due.wrappers × Room limit from out.old × Holding t.now book.now s.now rows.now n s1.now rows1.now n1 past1.now held.now many × Alone (row_in rows.now n i).kind k × (takes_fields (row_in rows.now n i).kind due.sort ≡ true) }
    ensures { (text : ℕ) (r : Ref) (ps : Pairs) → DueIs t.now book.now r due.sort due.number 0 → Holds t.now book.now s.now rows.now n s1.now rows1.now n1 held.now 0 many ps →
        Told text limit (coerced t.now (value_in ps) text (doc_of s.now rows.now n) k i r) from out.old out.new result }
{
    let number = due.number;
    let start = table_book::start_of(book, number);
    let end = table_book::end_of(book, number);
    object(
        t,
        book,
        s,
        rows,
        n,
        past,
        i,
        k - 1,
        KIND_OBJECT_FIELD,
        start,
        end,
        s1,
        rows1,
        n1,
        past1,
        held,
        many,
        out,
        limit,
        from,
    )
}

// Writes the list of row h, whose items are at the type that is due, with k levels left for each.
#[cycle(bare_field_input_list_object_put_kept_single_value_variable)]
fn list(
    t: &[u8],
    book: &[u32],
    s: &[u8],
    rows: &[u32],
    n: usize,
    past: &[u32],
    h: usize,
    k: usize,
    due: Due,
    s1: &[u8],
    rows1: &[u32],
    n1: usize,
    past1: &[u32],
    held: &[u32],
    many: usize,
    out: &mut [u8],
    limit: usize,
    from: usize,
) -> Result<usize, RefusedRow>
    requires { Ready t.now book.now s.now rows.now n past.now × (h < n) × Fits book.now due.sort due.number due.wrappers × Room limit from out.old × Meant t.now book.now due.sort due.number due.wrappers × Holding t.now book.now s.now rows.now n s1.now rows1.now n1 past1.now held.now many }
    ensures { (text : ℕ) (r : Ref) (ps : Pairs) → DueIs t.now book.now r due.sort due.number due.wrappers → Holds t.now book.now s.now rows.now n s1.now rows1.now n1 held.now 0 many ps →
        Told text limit (listed t.now (value_in ps) text (doc_of s.now rows.now n) n k h r) from out.old out.new result }
{
    let mut at = place(limit, from, 3);
    let mut c = first_child(s, rows, n, past, h);
    while c < n {
        at = value(
            t, book, s, rows, n, past, c, k, due, s1, rows1, n1, past1, held, many, out, limit, at,
        )?;
        c = next_child(s, rows, n, past, h, c);
    }
    Ok(close(out, limit, from, TAG_LIST, at))
}

// Writes the entries of this kind of row h as an object of what the content from `start` up to `end` makes due, with k levels left for each
// value: kind 10 are an object's, kind 6 a field's arguments.
#[cycle(bare_field_input_list_object_put_kept_single_value_variable)]
pub fn object(
    t: &[u8],
    book: &[u32],
    s: &[u8],
    rows: &[u32],
    n: usize,
    past: &[u32],
    h: usize,
    k: usize,
    kind: u32,
    start: usize,
    end: usize,
    s1: &[u8],
    rows1: &[u32],
    n1: usize,
    past1: &[u32],
    held: &[u32],
    many: usize,
    out: &mut [u8],
    limit: usize,
    from: usize,
) -> Result<usize, RefusedRow>
    requires { Ready t.now book.now s.now rows.now n past.now × (h ≤ n) × Bounds t.now start end × (all_of slim_due (dues_by kind t.now start end) ≡ true) × Room limit from out.old × Holding t.now book.now s.now rows.now n s1.now rows1.now n1 past1.now held.now many }
    ensures { (text : ℕ) (ps : Pairs) → Holds t.now book.now s.now rows.now n s1.now rows1.now n1 held.now 0 many ps →
        Told text limit (objected t.now (value_in ps) text (doc_of s.now rows.now n) n k kind h (dues_by kind t.now start end)) from out.old out.new result }
{
    let again = find_again(s, rows, n, past, h, kind);
    if again < n {
        return Err(RefusedRow {
            row: again,
            why: REASON_REPEATED,
        });
    }
    let alien = find_alien(t, start, end, s, rows, n, past, h, kind);
    if alien < n {
        return Err(RefusedRow {
            row: alien,
            why: REASON_UNKNOWN,
        });
    }
    let mut at = place(limit, from, 3);
    let mut p = start;
    loop {
        let Some(f) = next_due(t, p, end, kind) else {
            return Ok(close(out, limit, from, TAG_INPUT, at));
        };
        at = field(
            t, book, s, rows, n, past, h, k, kind, f.tag, f.start, f.end, s1, rows1, n1, past1,
            held, many, out, limit, at,
        )?;
        p = f.end;
    }
}

// Writes the pair of the member or argument with this tag and content, among the entries of this kind of row h, if it is given.
#[cycle(bare_field_input_list_object_put_kept_single_value_variable)]
fn field(
    t: &[u8],
    book: &[u32],
    s: &[u8],
    rows: &[u32],
    n: usize,
    past: &[u32],
    h: usize,
    k: usize,
    kind: u32,
    tag: u8,
    start: usize,
    end: usize,
    s1: &[u8],
    rows1: &[u32],
    n1: usize,
    past1: &[u32],
    held: &[u32],
    many: usize,
    out: &mut [u8],
    limit: usize,
    from: usize,
) -> Result<usize, RefusedRow>
    requires { Ready t.now book.now s.now rows.now n past.now × (h ≤ n) × Bounds t.now start end × (slim_due (due_of (member_from t.now tag start end)) ≡ true) × Room limit from out.old × Holding t.now book.now s.now rows.now n s1.now rows1.now n1 past1.now held.now many }
    ensures { (text : ℕ) (ps : Pairs) → Holds t.now book.now s.now rows.now n s1.now rows1.now n1 held.now 0 many ps →
        ToldPairs text limit (stepped t.now (value_in ps) text (doc_of s.now rows.now n) n k kind h (due_of (member_from t.now tag start end))) from out.old out.new result }
{
    let name = table_members::member_name(t, tag, start, end);
    let m = table_members::member_type(t, tag, start, end);
    let c = given(
        s, rows, n, past, h, k, kind, held, many, t, name.at, name.size,
    );
    if n <= c {
        return lacking(limit, from, h, m.wrappers);
    }
    let due = due_of(t, book, t, m.at, m.size, m.wrappers);
    let first = place(limit, from, 3);
    let at = name.at;
    let stop = at + name.size;
    let middle = put_field(out, limit, first, TAG_NAME, &t[at..stop]);
    let e = value(
        t,
        book,
        s,
        rows,
        n,
        past,
        c + 1,
        k,
        due,
        s1,
        rows1,
        n1,
        past1,
        held,
        many,
        out,
        limit,
        middle,
    )?;
    Ok(close(out, limit, from, TAG_PAIR, e))
}
