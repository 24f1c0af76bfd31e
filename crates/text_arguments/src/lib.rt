// Reads arguments, directives and type conditions, and writes their rows. Each answers Ok with the cursor past what it read, or Err with the refusal.
#![tactic(auto)]

ghost use Rattle.std.specs.Prelude.{◌≡◌};
ghost use Rattle.paper.specs.Language.{at_sign, paren_l};
ghost use Rattle.text_scan.specs.Head.{kind_of};
ghost use Rattle.text_cursor.specs.Reader.{Ready, Said};
ghost use Rattle.text_arguments.specs.Arguments.{AtOn, arguments_stack, directive_stack, directives_stack, condition_stack};

use paper::{KIND_ARGUMENT, KIND_DIRECTIVE, KIND_TYPE_REFERENCE, MOST_ROWS, Refusal};
use text_cursor::{Cursor, no_going, put_end, put_row};
use text_scan::{TOKEN_AT, TOKEN_NAME, TOKEN_PAREN_CLOSE, TOKEN_PAREN_OPEN};
use text_values::entry;

// Arguments, at their (
pub fn arguments(
    s: &[u8],
    rows: &mut [u32],
    c: Cursor,
    parent: u32,
    left: u32,
) -> Result<Cursor, Refusal>
    requires { Ready s.now rows.old c parent × (c.kind ≡ kind_of paren_l) }
    ensures { Said 0 s.now rows.old rows.new c parent left arguments_stack result }
{
    if left == 0 {
        return Err(Refusal::TooDeep(c.start));
    }
    let n = c.rows;
    let mut d = c.past(s, n)?;
    loop {
        let next = entry(s, rows, d, parent, left - 1, KIND_ARGUMENT, false)?;
        if next.kind == TOKEN_PAREN_CLOSE {
            let m = next.rows;
            return next.past(s, m);
        }
        d = next;
    }
}

// Directive, at its @
fn directive(
    s: &[u8],
    rows: &mut [u32],
    c: Cursor,
    parent: u32,
    left: u32,
) -> Result<Cursor, Refusal>
    requires { Ready s.now rows.old c parent × (c.kind ≡ kind_of at_sign) }
    ensures { Said 1 s.now rows.old rows.new c parent left directive_stack result }
{
    let n = c.rows;
    if n == MOST_ROWS {
        return Err(Refusal::TooManyRows(c.start));
    }
    let name = c.past(s, n + 1)?;
    if name.kind != TOKEN_NAME {
        return no_going(name);
    }
    put_row(
        rows,
        n,
        KIND_DIRECTIVE,
        c.start,
        0,
        parent,
        name.start,
        name.end - name.start,
        0,
    );
    let first = name.past(s, n + 1)?;
    if first.kind != TOKEN_PAREN_OPEN {
        put_end(rows, n, first.stop);
        return Ok(first);
    }
    let d = arguments(s, rows, first, n, left)?;
    put_end(rows, n, d.stop);
    Ok(d)
}

// Directives, at their first @
pub fn directives(
    s: &[u8],
    rows: &mut [u32],
    c: Cursor,
    parent: u32,
    left: u32,
) -> Result<Cursor, Refusal>
    requires { Ready s.now rows.old c parent × (c.kind ≡ kind_of at_sign) }
    ensures { Said 0 s.now rows.old rows.new c parent left directives_stack result }
{
    let mut d = c;
    loop {
        let next = directive(s, rows, d, parent, left)?;
        if next.kind != TOKEN_AT {
            return Ok(next);
        }
        d = next;
    }
}

// TypeCondition, at its `on`
pub fn condition(
    s: &[u8],
    rows: &mut [u32],
    c: Cursor,
    parent: u32,
    left: u32,
) -> Result<Cursor, Refusal>
    requires { Ready s.now rows.old c parent × AtOn s.now c }
    ensures { Said 1 s.now rows.old rows.new c parent left condition_stack result }
{
    let n = c.rows;
    let name = c.past(s, n)?;
    if name.kind != TOKEN_NAME {
        return no_going(name);
    }
    if n == MOST_ROWS {
        return Err(Refusal::TooManyRows(name.start));
    }
    put_row(
        rows,
        n,
        KIND_TYPE_REFERENCE,
        name.start,
        name.end,
        parent,
        name.start,
        name.end - name.start,
        0,
    );
    name.past(s, n + 1)
}
