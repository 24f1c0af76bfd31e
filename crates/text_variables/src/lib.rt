// Reads variable definitions, and writes their rows. Each answers Ok with the cursor past what it read, or Err with the refusal.
#![tactic(auto)]

ghost use Rattle.std.specs.Prelude.{◌≡◌, [], ◌∷◌, ℕ, ◌+◌, ◌<◌};
ghost use Rattle.paper.specs.Grammar.{nt};
ghost use Rattle.paper.specs.Numbers.{most_rows};
ghost use Rattle.paper.specs.Language.{VariableDefinitions, VariableDefinition, DefaultValue?, dollar, paren_l};
ghost use Rattle.text_scan.specs.Head.{kind_of};
ghost use Rattle.text_cursor.specs.Reader.{Ready, Said};
ghost use Rattle.text_variables.specs.Counted.{CountedSaid, stays, opens, variables_are, same_fragments};
ghost use Rattle.text_variables.specs.Variables.{one_variable_more, variable_begun, variables_become, head_stack};

use paper::{KIND_VARIABLE_DEFINITION, MOST_ROWS, MOST_VARIABLES, Refusal};
use text_cursor::{Cursor, no_going, put_end, put_row};
use text_references::type_reference;
use text_scan::{TOKEN_COLON, TOKEN_DOLLAR, TOKEN_EQUALS, TOKEN_NAME, TOKEN_PAREN_CLOSE};

// DefaultValue, or none
fn default_if(
    s: &[u8],
    rows: &mut [u32],
    c: Cursor,
    parent: u32,
    left: u32,
) -> Result<Cursor, Refusal>
    requires { Ready s.now rows.old c parent }
    ensures { Said 0 s.now rows.old rows.new c parent left (nt DefaultValue? ∷ []) result }
{
    if c.kind != TOKEN_EQUALS {
        return Ok(c);
    }
    let n = c.rows;
    let first = c.past(s, n)?;
    text_values::value(s, rows, first, parent, left, true)
}

// Variable and colon of a variable definition, at its $
fn variable_head(s: &[u8], rows: &mut [u32], c: Cursor, parent: u32) -> Result<Cursor, Refusal>
    requires { Ready s.now rows.old c parent × (c.kind ≡ kind_of dollar) × (c.rows < most_rows) }
    ensures { (left : ℕ) → CountedSaid 1 s.now rows.old rows.new c parent left head_stack (opens c.rows) one_variable_more variable_begun result }
{
    let n = c.rows;
    let name = c.past(s, n + 1)?;
    if name.kind != TOKEN_NAME {
        return no_going(name);
    }
    put_row(
        rows,
        n,
        KIND_VARIABLE_DEFINITION,
        c.start,
        0,
        parent,
        name.start,
        name.end - name.start,
        0,
    );
    let colon = name.past(s, n + 1)?;
    if colon.kind != TOKEN_COLON {
        return no_going(colon);
    }
    colon.past(s, n + 1)
}

// VariableDefinition, the one after `before` others
fn variable_definition(
    s: &[u8],
    rows: &mut [u32],
    c: Cursor,
    parent: u32,
    left: u32,
    before: u32,
) -> Result<Cursor, Refusal>
    requires { Ready s.now rows.old c parent }
    ensures { CountedSaid 1 s.now rows.old rows.new c parent left (nt VariableDefinition ∷ []) stays (variables_are before) (variables_become (before + 1)) result }
{
    if c.kind != TOKEN_DOLLAR {
        return no_going(c);
    }
    let n = c.rows;
    if n == MOST_ROWS {
        return Err(Refusal::TooManyRows(c.start));
    }
    if before == MOST_VARIABLES {
        return Err(Refusal::TooMany(c.start));
    }
    let first = variable_head(s, rows, c, parent)?;
    let after = type_reference(s, rows, first, n, left)?;
    let d = default_if(s, rows, after, n, left)?;
    put_end(rows, n, d.stop);
    Ok(d)
}

// VariableDefinitions, at their (
pub fn variable_definitions(
    s: &[u8],
    rows: &mut [u32],
    c: Cursor,
    parent: u32,
    left: u32,
) -> Result<Cursor, Refusal>
    requires { Ready s.now rows.old c parent × (c.kind ≡ kind_of paren_l) }
    ensures { CountedSaid 1 s.now rows.old rows.new c parent left (nt VariableDefinitions ∷ []) stays (variables_are 0) same_fragments result }
{
    if left == 0 {
        return Err(Refusal::TooDeep(c.start));
    }
    let n = c.rows;
    let mut d = c.past(s, n)?;
    let mut i: u32 = 0;
    loop {
        let next = variable_definition(s, rows, d, parent, left - 1, i)?;
        if next.kind == TOKEN_PAREN_CLOSE {
            let m = next.rows;
            return next.past(s, m);
        }
        d = next;
        i += 1;
    }
}
