// Reads type references, and writes their rows. Each answers Ok with the cursor past what it read, or Err with the refusal.
#![tactic(auto)]

ghost use Rattle.std.specs.Prelude.{◌≡◌, ◌≤◌};
ghost use Rattle.paper.specs.Numbers.{most_wrappers};
ghost use Rattle.paper.specs.Language.{n_other};
ghost use Rattle.text_scan.specs.Head.{kind_of};
ghost use Rattle.text_cursor.specs.Reader.{Ready};
ghost use Rattle.text_references.specs.Types.{bang_stack, closers, four, most_before, most_inside, Seen, Marked, Opens, Says, Named, TypedReady, TypeSaid, RestSaid};

use paper::{KIND_TYPE_REFERENCE, MOST_ROWS, MOST_WRAPPERS, Refusal, WRAP_LIST, WRAP_NON_NULL};
use text_cursor::{Cursor, no_going, put_row};
use text_scan::{TOKEN_BANG, TOKEN_BRACKET_CLOSE, TOKEN_BRACKET_OPEN, TOKEN_NAME};

// Where a type reference has been read to: the cursor, its wrappers so far, and how many marks they are. The readers of its marks answer Ok
// with it, or Err with the refusal.
#[derive(Clone, Copy)]
pub struct Wrapped {
    pub at: Cursor,
    pub extra: u32,
    pub marks: u32,
}

// The opening brackets of a type reference, at the first of them or at its name; `left` levels are left
fn open_brackets(s: &[u8], c: Cursor, left: u32) -> Result<Wrapped, Refusal>
    requires { Seen s.now c }
    ensures { Opens s.now c left result }
{
    let n = c.rows;
    let mut d = c;
    let mut marks: u32 = 0;
    loop {
        if d.kind != TOKEN_BRACKET_OPEN {
            return Ok(Wrapped {
                at: d,
                extra: 0,
                marks: marks,
            });
        }
        if left <= marks {
            return Err(Refusal::TooDeep(d.start));
        }
        if MOST_WRAPPERS <= marks {
            return Err(Refusal::TooMany(d.start));
        }
        d = d.past(s, n)?;
        marks += 1;
    }
}

// A `!`, or none, after the wrapped type w
fn bang_if(s: &[u8], w: Wrapped) -> Result<Wrapped, Refusal>
    requires { Marked s.now w most_inside }
    ensures { Says s.now w bang_stack 0 result }
{
    let c = w.at;
    let extra = w.extra;
    let marks = w.marks;
    if c.kind != TOKEN_BANG {
        return Ok(w);
    }
    if MOST_WRAPPERS <= marks {
        return Err(Refusal::TooMany(c.start));
    }
    let n = c.rows;
    let next = c.past(s, n)?;
    Ok(Wrapped {
        at: next,
        extra: extra * 4 + WRAP_NON_NULL,
        marks: marks + 1,
    })
}

// One closing bracket, and a `!` or none
fn close_bracket(s: &[u8], w: Wrapped) -> Result<Wrapped, Refusal>
    requires { Marked s.now w most_before }
    ensures { Says s.now w (closers 1) 1 result }
{
    let c = w.at;
    let extra = w.extra;
    let marks = w.marks;
    if c.kind != TOKEN_BRACKET_CLOSE {
        return Err(Refusal::NoGoing(c.start));
    }
    let n = c.rows;
    let next = c.past(s, n)?;
    bang_if(
        s,
        Wrapped {
            at: next,
            extra: extra * 4 + WRAP_LIST,
            marks: marks,
        },
    )
}

// The closing brackets of a type reference that `opened` brackets opened
fn close_brackets(s: &[u8], w: Wrapped, opened: u32) -> Result<Wrapped, Refusal>
    requires { Marked s.now w (four w.marks) × (opened ≤ most_wrappers) }
    ensures { Says s.now w (closers opened) opened result }
{
    let mut v = w;
    for _ in 0..opened {
        v = close_bracket(s, v)?;
    }
    Ok(v)
}

// A type reference's name and what closes it, for a reference whose `marks` brackets are open
fn base_type(s: &[u8], c: Cursor, marks: u32) -> Result<Wrapped, Refusal>
    requires { Seen s.now c × (c.kind ≡ kind_of n_other) × (marks ≤ most_wrappers) }
    ensures { Named s.now c marks result }
{
    let n = c.rows;
    let next = c.past(s, n)?;
    let w = bang_if(
        s,
        Wrapped {
            at: next,
            extra: 0,
            marks: marks,
        },
    )?;
    close_brackets(s, w, marks)
}

// TypeRef, with the marks of its row
pub fn type_reference(
    s: &[u8],
    rows: &mut [u32],
    c: Cursor,
    parent: u32,
    left: u32,
) -> Result<Cursor, Refusal>
    requires { Ready s.now rows.old c parent }
    ensures { TypeSaid s.now rows.old rows.new c parent left result }
{
    let n = c.rows;
    let start = c.start;
    if c.kind != TOKEN_NAME {
        if c.kind != TOKEN_BRACKET_OPEN {
            return no_going(c);
        }
        if left == 0 {
            return Err(Refusal::TooDeep(start));
        }
    }
    if n == MOST_ROWS {
        return Err(Refusal::TooManyRows(start));
    }
    let w = open_brackets(
        s,
        Cursor {
            kind: c.kind,
            start: start,
            end: c.end,
            stop: c.stop,
            rows: n + 1,
        },
        left,
    )?;
    typed(s, rows, w, parent, n, start)
}

// The rest of a type reference behind its opening brackets; row n begins at `start`
fn typed(
    s: &[u8],
    rows: &mut [u32],
    w: Wrapped,
    parent: u32,
    n: u32,
    start: u32,
) -> Result<Cursor, Refusal>
    requires { TypedReady s.now rows.old w n }
    ensures { RestSaid s.now rows.old rows.new w parent n start result }
{
    let name = w.at;
    let marks = w.marks;
    if name.kind != TOKEN_NAME {
        return no_going(name);
    }
    let v = base_type(s, name, marks)?;
    let d = v.at;
    put_row(
        rows,
        n,
        KIND_TYPE_REFERENCE,
        start,
        d.stop,
        parent,
        name.start,
        name.end - name.start,
        v.extra,
    );
    Ok(d)
}
