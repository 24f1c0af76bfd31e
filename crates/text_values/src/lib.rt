// Reads values, and the entries of arguments and objects, and writes their rows.
// Each answers Ok with the cursor past what it read, or Err with the refusal.
#![tactic(auto)]

ghost use Rattle.std.specs.Prelude.{◌≡◌, ◌≢◌};
ghost use Rattle.paper.specs.Language.{dollar, bracket_l, brace_l, n_other};
ghost use Rattle.text_scan.specs.Head.{kind_of};
ghost use Rattle.text_cursor.specs.Reader.{Ready, Said};
ghost use Rattle.text_leaves.specs.Stacks.{value_stack, entry_stack, EntryKind};
ghost use Rattle.text_leaves.specs.Marks.{SaidScalar, SaidVariable, SaidNamed};

use paper::{
    EXTRA_FALSE, EXTRA_TRUE, KIND_BOOLEAN, KIND_ENUM, KIND_FLOAT, KIND_INTEGER, KIND_LIST,
    KIND_NULL, KIND_OBJECT, KIND_OBJECT_FIELD, KIND_STRING, KIND_VARIABLE, MOST_ROWS, Refusal,
};
use text_cursor::{Cursor, no_going, put_end, put_row};
use text_leaves::{close, enter, leaf};
use text_scan::{
    TOKEN_BRACE_CLOSE, TOKEN_BRACE_OPEN, TOKEN_BRACKET_CLOSE, TOKEN_BRACKET_OPEN, TOKEN_COLON,
    TOKEN_DOLLAR, TOKEN_FLOAT, TOKEN_INT, TOKEN_NAME, TOKEN_STRING, WORD_FALSE, WORD_NULL,
    WORD_TRUE,
};

// A name as a value: true, false, null or an enum value.
fn word_value(s: &[u8], rows: &mut [u32], c: Cursor, parent: u32) -> Result<Cursor, Refusal>
    requires { Ready s.now rows.old c parent × (c.kind ≡ kind_of n_other) }
    ensures { SaidScalar s.now rows.old rows.new c parent result }
{
    let start = c.start;
    let end = c.end;
    let w = text_scan::word(s, start as usize, end as usize);
    if w == WORD_TRUE {
        return leaf(s, rows, c, parent, KIND_BOOLEAN, 0, 0, EXTRA_TRUE);
    }
    if w == WORD_FALSE {
        return leaf(s, rows, c, parent, KIND_BOOLEAN, 0, 0, EXTRA_FALSE);
    }
    if w == WORD_NULL {
        return leaf(s, rows, c, parent, KIND_NULL, 0, 0, 0);
    }
    leaf(s, rows, c, parent, KIND_ENUM, start, end - start, 0)
}

// A value of one token, or none at all.
fn scalar(s: &[u8], rows: &mut [u32], c: Cursor, parent: u32) -> Result<Cursor, Refusal>
    requires { Ready s.now rows.old c parent × (c.kind ≢ kind_of dollar) × (c.kind ≢ kind_of bracket_l) × (c.kind ≢ kind_of brace_l) }
    ensures { SaidScalar s.now rows.old rows.new c parent result }
{
    let kind = c.kind;
    if kind == TOKEN_NAME {
        return word_value(s, rows, c, parent);
    }
    if kind == TOKEN_INT {
        return leaf(s, rows, c, parent, KIND_INTEGER, 0, 0, 0);
    }
    if kind == TOKEN_FLOAT {
        return leaf(s, rows, c, parent, KIND_FLOAT, 0, 0, 0);
    }
    if kind == TOKEN_STRING {
        return leaf(s, rows, c, parent, KIND_STRING, 0, 0, 0);
    }
    no_going(c)
}

// Variable: $ Name
fn variable(s: &[u8], rows: &mut [u32], c: Cursor, parent: u32) -> Result<Cursor, Refusal>
    requires { Ready s.now rows.old c parent × (c.kind ≡ kind_of dollar) }
    ensures { SaidVariable s.now rows.old rows.new c parent result }
{
    let n = c.rows;
    if n == MOST_ROWS {
        return Err(Refusal::TooManyRows(c.start));
    }
    let name = c.past(s, n + 1)?;
    if name.kind != TOKEN_NAME {
        return no_going(name);
    }
    put_row(
        rows,
        n,
        KIND_VARIABLE,
        c.start,
        name.end,
        parent,
        name.start,
        name.end - name.start,
        0,
    );
    name.past(s, n + 1)
}

// Value, or where `constant` Value[Const]
#[cycle(entry_list_object_value)]
pub fn value(
    s: &[u8],
    rows: &mut [u32],
    c: Cursor,
    parent: u32,
    left: u32,
    constant: bool,
) -> Result<Cursor, Refusal>
    requires { Ready s.now rows.old c parent }
    ensures { Said 1 s.now rows.old rows.new c parent left (value_stack constant) result }
{
    let kind = c.kind;
    if kind == TOKEN_BRACKET_OPEN {
        return list(s, rows, c, parent, left, constant);
    }
    if kind == TOKEN_BRACE_OPEN {
        return object(s, rows, c, parent, left, constant);
    }
    if kind == TOKEN_DOLLAR {
        if constant {
            return no_going(c);
        }
        return variable(s, rows, c, parent);
    }
    scalar(s, rows, c, parent)
}

// ListValue, at its [
#[cycle(entry_list_object_value)]
fn list(
    s: &[u8],
    rows: &mut [u32],
    c: Cursor,
    parent: u32,
    left: u32,
    constant: bool,
) -> Result<Cursor, Refusal>
    requires { Ready s.now rows.old c parent × (c.kind ≡ kind_of bracket_l) }
    ensures { Said 1 s.now rows.old rows.new c parent left (value_stack constant) result }
{
    let n = c.rows;
    let mut d = enter(s, rows, c, parent, left, KIND_LIST)?;
    loop {
        let kind = d.kind;
        if kind == TOKEN_BRACKET_CLOSE {
            return close(s, rows, d, n);
        }
        d = value(s, rows, d, n, left - 1, constant)?;
    }
}

// ObjectValue, at its {
#[cycle(entry_list_object_value)]
fn object(
    s: &[u8],
    rows: &mut [u32],
    c: Cursor,
    parent: u32,
    left: u32,
    constant: bool,
) -> Result<Cursor, Refusal>
    requires { Ready s.now rows.old c parent × (c.kind ≡ kind_of brace_l) }
    ensures { Said 1 s.now rows.old rows.new c parent left (value_stack constant) result }
{
    let n = c.rows;
    let mut d = enter(s, rows, c, parent, left, KIND_OBJECT)?;
    loop {
        let kind = d.kind;
        if kind == TOKEN_BRACE_CLOSE {
            return close(s, rows, d, n);
        }
        d = entry(s, rows, d, n, left - 1, KIND_OBJECT_FIELD, constant)?;
    }
}

// Name : of an entry, whose row begins and is of this kind; the cursor comes to the value.
fn entry_name(
    s: &[u8],
    rows: &mut [u32],
    c: Cursor,
    parent: u32,
    kind: u32,
) -> Result<Cursor, Refusal>
    requires { Ready s.now rows.old c parent × EntryKind kind }
    ensures { SaidNamed s.now rows.old rows.new c parent kind result }
{
    if c.kind != TOKEN_NAME {
        return no_going(c);
    }
    let n = c.rows;
    if n == MOST_ROWS {
        return Err(Refusal::TooManyRows(c.start));
    }
    let size = c.end - c.start;
    put_row(rows, n, kind, c.start, 0, parent, c.start, size, 0);
    let colon = c.past(s, n + 1)?;
    if colon.kind != TOKEN_COLON {
        return no_going(colon);
    }
    colon.past(s, n + 1)
}

// Argument or ObjectField, by its row's kind: Name : Value
#[cycle(entry_list_object_value)]
pub fn entry(
    s: &[u8],
    rows: &mut [u32],
    c: Cursor,
    parent: u32,
    left: u32,
    kind: u32,
    constant: bool,
) -> Result<Cursor, Refusal>
    requires { Ready s.now rows.old c parent × EntryKind kind }
    ensures { Said 1 s.now rows.old rows.new c parent left (entry_stack kind constant) result }
{
    let n = c.rows;
    let first = entry_name(s, rows, c, parent, kind)?;
    let d = value(s, rows, first, n, left, constant)?;
    put_end(rows, n, d.stop);
    Ok(d)
}
