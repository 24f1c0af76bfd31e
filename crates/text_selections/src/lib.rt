// Reads selection sets, with their fields, fragment spreads and inline fragments, and writes their rows.
// Each answers Ok with the cursor past what it read, or Err with the refusal.
#![tactic(auto)]

ghost use Rattle.std.specs.Prelude.{◌≡◌, true, false, [], ◌+◌, ◌≤◌, ◌<◌, length};
ghost use Rattle.paper.specs.Numbers.{most_rows};
ghost use Rattle.paper.specs.Language.{colon, n_other, spread};
ghost use Rattle.text_scan.specs.Head.{kind_of};
ghost use Rattle.text_cursor.specs.Reader.{Ready, Said};
ghost use Rattle.text_arguments.specs.Passed.{Passes, opened, shut};
ghost use Rattle.text_selections.specs.Selections.{names_fragment, selection_set_stack, selection_stack, body_stack, field_stack, field_rest_stack, spread_stack, spread_begun, AliasSaid, HeadSaid};

use paper::{KIND_FIELD, KIND_INLINE, KIND_SPREAD, MOST_ROWS, Refusal};
use text_arguments::{arguments, condition, directives};
use text_cursor::{Cursor, no_going, put_end, put_row};
use text_scan::{
    TOKEN_AT, TOKEN_BRACE_CLOSE, TOKEN_BRACE_OPEN, TOKEN_COLON, TOKEN_NAME, TOKEN_PAREN_OPEN,
    TOKEN_SPREAD, WORD_ON,
};

// Field up to its selection set, at its first name: Alias? Name Arguments? Directives?
fn field_head(
    s: &[u8],
    rows: &mut [u32],
    c: Cursor,
    parent: u32,
    left: u32,
) -> Result<Cursor, Refusal>
    requires { Ready s.now rows.old c parent × (c.kind ≡ kind_of n_other) }
    ensures { HeadSaid s.now rows.old rows.new c parent left result }
{
    let n = c.rows;
    if n == MOST_ROWS {
        return Err(Refusal::TooManyRows(c.start));
    }
    let after = c.past(s, n + 1)?;
    if after.kind == TOKEN_COLON {
        return aliased(s, rows, after, parent, left, n, c.start);
    }
    put_row(
        rows,
        n,
        KIND_FIELD,
        c.start,
        0,
        parent,
        c.start,
        c.end - c.start,
        0,
    );
    field_rest(s, rows, after, n, left)
}

// The same from the colon of its alias on; row n begins at `start`
fn aliased(
    s: &[u8],
    rows: &mut [u32],
    c: Cursor,
    parent: u32,
    left: u32,
    n: u32,
    start: u32,
) -> Result<Cursor, Refusal>
    requires { Ready s.now rows.old c n × (c.kind ≡ kind_of colon) × (c.rows ≡ n + 1) }
    ensures { AliasSaid s.now rows.old rows.new c parent left n start result }
{
    let name = c.past(s, n + 1)?;
    if name.kind != TOKEN_NAME {
        return no_going(name);
    }
    put_row(
        rows,
        n,
        KIND_FIELD,
        start,
        0,
        parent,
        name.start,
        name.end - name.start,
        0,
    );
    let after = name.past(s, n + 1)?;
    field_rest(s, rows, after, n, left)
}

// Arguments? Directives?
fn field_rest(s: &[u8], rows: &mut [u32], c: Cursor, n: u32, left: u32) -> Result<Cursor, Refusal>
    requires { Ready s.now rows.old c n }
    ensures { Said 0 s.now rows.old rows.new c n left field_rest_stack result }
{
    if c.kind == TOKEN_PAREN_OPEN {
        let d = arguments(s, rows, c, n, left)?;
        if d.kind == TOKEN_AT {
            return directives(s, rows, d, n, left);
        }
        return Ok(d);
    }
    if c.kind == TOKEN_AT {
        return directives(s, rows, c, n, left);
    }
    Ok(c)
}

// FragmentSpread, from its name on, at which the cursor stands; row n begins at `start`
fn named_spread(
    s: &[u8],
    rows: &mut [u32],
    c: Cursor,
    parent: u32,
    left: u32,
    n: u32,
    start: u32,
) -> Result<Cursor, Refusal>
    requires { Ready s.now rows.old c n × (names_fragment s.now c ≡ true) × (c.rows ≡ n + 1) }
    ensures { Passes 1 s.now (spread_begun rows.old n start parent) rows.new c n left (opened n) shut spread_stack [] result }
{
    put_row(
        rows,
        n,
        KIND_SPREAD,
        start,
        0,
        parent,
        c.start,
        c.end - c.start,
        0,
    );
    let m = c.rows;
    let after = c.past(s, m)?;
    if after.kind != TOKEN_AT {
        put_end(rows, n, after.stop);
        return Ok(after);
    }
    let d = directives(s, rows, after, n, left)?;
    put_end(rows, n, d.stop);
    Ok(d)
}

// InlineFragment, from behind its dots up to its selection set: TypeCondition? Directives?; row n begins at `start`
fn inline_head(
    s: &[u8],
    rows: &mut [u32],
    c: Cursor,
    parent: u32,
    left: u32,
    n: u32,
    start: u32,
) -> Result<Cursor, Refusal>
    requires { Ready s.now rows.old c n × (names_fragment s.now c ≡ false) × (c.rows ≡ n + 1) }
    ensures { Passes 0 s.now (spread_begun rows.old n start parent) rows.new c n left (opened n) (opened n) spread_stack body_stack result }
{
    put_row(rows, n, KIND_INLINE, start, 0, parent, 0, 0, 0);
    if c.kind == TOKEN_NAME {
        let d = condition(s, rows, c, n, left)?;
        if d.kind == TOKEN_AT {
            return directives(s, rows, d, n, left);
        }
        return Ok(d);
    }
    if c.kind == TOKEN_AT {
        return directives(s, rows, c, n, left);
    }
    Ok(c)
}

// SelectionSet; no other token than { goes on
#[cycle(body_field_selection_selection_set_spread)]
pub fn selection_set(
    s: &[u8],
    rows: &mut [u32],
    c: Cursor,
    parent: u32,
    left: u32,
) -> Result<Cursor, Refusal>
    requires { Ready s.now rows.old c parent }
    ensures { Said 1 s.now rows.old rows.new c parent left selection_set_stack result }
{
    if c.kind != TOKEN_BRACE_OPEN {
        return no_going(c);
    }
    if left == 0 {
        return Err(Refusal::TooDeep(c.start));
    }
    let n = c.rows;
    let mut d = c.past(s, n)?;
    loop {
        let next = selection(s, rows, d, parent, left - 1)?;
        if next.kind == TOKEN_BRACE_CLOSE {
            let m = next.rows;
            return next.past(s, m);
        }
        d = next;
    }
}

// Selection
#[cycle(body_field_selection_selection_set_spread)]
fn selection(
    s: &[u8],
    rows: &mut [u32],
    c: Cursor,
    parent: u32,
    left: u32,
) -> Result<Cursor, Refusal>
    requires { Ready s.now rows.old c parent }
    ensures { Said 1 s.now rows.old rows.new c parent left selection_stack result }
{
    if c.kind == TOKEN_NAME {
        return field(s, rows, c, parent, left);
    }
    if c.kind == TOKEN_SPREAD {
        return spread(s, rows, c, parent, left);
    }
    no_going(c)
}

// Field, at its first name
#[cycle(body_field_selection_selection_set_spread)]
fn field(s: &[u8], rows: &mut [u32], c: Cursor, parent: u32, left: u32) -> Result<Cursor, Refusal>
    requires { Ready s.now rows.old c parent × (c.kind ≡ kind_of n_other) }
    ensures { Said 1 s.now rows.old rows.new c parent left field_stack result }
{
    let n = c.rows;
    let head = field_head(s, rows, c, parent, left)?;
    if head.kind == TOKEN_BRACE_OPEN {
        return body(s, rows, head, n, left);
    }
    put_end(rows, n, head.stop);
    Ok(head)
}

// FragmentSpread or InlineFragment, at its dots
#[cycle(body_field_selection_selection_set_spread)]
fn spread(s: &[u8], rows: &mut [u32], c: Cursor, parent: u32, left: u32) -> Result<Cursor, Refusal>
    requires { Ready s.now rows.old c parent × (c.kind ≡ kind_of spread) }
    ensures { Said 1 s.now rows.old rows.new c parent left selection_stack result }
{
    let n = c.rows;
    if n == MOST_ROWS {
        return Err(Refusal::TooManyRows(c.start));
    }
    let d = c.past(s, n + 1)?;
    if names_fragment(s, d) {
        return named_spread(s, rows, d, parent, left, n, c.start);
    }
    let e = inline_head(s, rows, d, parent, left, n, c.start)?;
    body(s, rows, e, n, left)
}

// Whether the token looked at is a fragment's name: any but `on`
pub fn names_fragment(s: &[u8], c: Cursor) -> bool
    requires { (c.start ≤ c.end) × (c.end ≤ length s.now) }
    ensures { result ≡ names_fragment s.now c }
{
    if c.kind == TOKEN_NAME {
        return text_scan::word(s, c.start as usize, c.end as usize) != WORD_ON;
    }
    false
}

// The selection set that ends row n
#[cycle(body_field_selection_selection_set_spread)]
fn body(s: &[u8], rows: &mut [u32], c: Cursor, n: u32, left: u32) -> Result<Cursor, Refusal>
    requires { Ready s.now rows.old c n × (n < most_rows) }
    ensures { Passes 1 s.now rows.old rows.new c n left (opened n) shut body_stack [] result }
{
    let d = selection_set(s, rows, c, n, left)?;
    put_end(rows, n, d.stop);
    Ok(d)
}
