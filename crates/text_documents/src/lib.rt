// Reads documents and variables texts, and writes their rows. Each answers Ok with the cursor past what it read, or Err with the refusal.
#![tactic(auto)]

ghost use Rattle.std.specs.Prelude.{◌≡◌, true, [], ◌∷◌, ◌+◌, ◌≤◌, ◌<◌, length};
ghost use Rattle.paper.specs.Grammar.{nt};
ghost use Rattle.paper.specs.Numbers.{most_text, most_levels, most_rows, rows_size, no_parent};
ghost use Rattle.paper.specs.Language.{Document, Definition, VariablesText, VariableDefinitions?, FragmentName, TypeCondition, brace_l};
ghost use Rattle.paper.specs.Rows.{pop};
ghost use Rattle.paper.proofs.Lexing.{from};
ghost use Rattle.text_scan.specs.Head.{head_of, kind_of};
ghost use Rattle.text_cursor.specs.Reader.{Ready, Said, moved_to};
ghost use Rattle.text_selections.specs.Selections.{names_fragment};
ghost use Rattle.text_variables.specs.Counted.{CountedSaid, stays, any_counts, fragments_are, variables_are, same_counts, same_fragments, fragments_become};
ghost use Rattle.text_documents.specs.Words.{set_stack, body_stack, word_at, fragments_after, AtType, AtFragment};
ghost use Rattle.text_documents.specs.Documents.{Ended};

use paper::{
    EXTRA_MUTATION, EXTRA_QUERY, EXTRA_SUBSCRIPTION, KIND_FRAGMENT, KIND_OPERATION, MOST_FRAGMENTS,
    MOST_LEVELS, MOST_ROWS, NO_PARENT, Refusal,
};
use text_arguments::{condition, directives};
use text_cursor::{Cursor, located, no_going, put_end, put_row};
use text_scan::{
    TOKEN_AT, TOKEN_BRACE_OPEN, TOKEN_END, TOKEN_NAME, TOKEN_PAREN_OPEN, WORD_FRAGMENT,
    WORD_MUTATION, WORD_OTHER, WORD_QUERY, WORD_SUBSCRIPTION,
};
use text_selections::{names_fragment, selection_set};
use text_variables::variable_definitions;

// The selection set that ends row n
fn definition_set(s: &[u8], rows: &mut [u32], c: Cursor, n: u32) -> Result<Cursor, Refusal>
    requires { Ready s.now rows.old c n × (n < most_rows) }
    ensures { CountedSaid 1 s.now rows.old rows.new c n most_levels set_stack pop any_counts same_counts result }
{
    let e = selection_set(s, rows, c, n, MOST_LEVELS)?;
    put_end(rows, n, e.stop);
    Ok(e)
}

// The body of row n, which it ends: Directives? SelectionSet
fn definition_body(s: &[u8], rows: &mut [u32], c: Cursor, n: u32) -> Result<Cursor, Refusal>
    requires { Ready s.now rows.old c n × (n < most_rows) }
    ensures { CountedSaid 1 s.now rows.old rows.new c n most_levels body_stack pop any_counts same_counts result }
{
    if c.kind != TOKEN_AT {
        return definition_set(s, rows, c, n);
    }
    let d = directives(s, rows, c, n, MOST_LEVELS)?;
    definition_set(s, rows, d, n)
}

// OperationDefinition behind its name: VariableDefinitions? Directives? SelectionSet
fn operation_rest(s: &[u8], rows: &mut [u32], c: Cursor, n: u32) -> Result<Cursor, Refusal>
    requires { Ready s.now rows.old c n × (n < most_rows) }
    ensures { CountedSaid 1 s.now rows.old rows.new c n most_levels (nt VariableDefinitions? ∷ body_stack) pop (variables_are 0) same_fragments result }
{
    if c.kind != TOKEN_PAREN_OPEN {
        return definition_body(s, rows, c, n);
    }
    let d = variable_definitions(s, rows, c, n, MOST_LEVELS)?;
    definition_body(s, rows, d, n)
}

// OperationDefinition, at its OperationType, whose extra is given
fn operation(s: &[u8], rows: &mut [u32], c: Cursor, extra: u32) -> Result<Cursor, Refusal>
    requires { Ready s.now rows.old c no_parent × AtType s.now c extra }
    ensures { CountedSaid 1 s.now rows.old rows.new c no_parent most_levels (nt Definition ∷ []) stays any_counts same_fragments result }
{
    let n = c.rows;
    if n == MOST_ROWS {
        return Err(Refusal::TooManyRows(c.start));
    }
    let d = c.past(s, n + 1)?;
    if d.kind != TOKEN_NAME {
        put_row(rows, n, KIND_OPERATION, c.start, 0, NO_PARENT, 0, 0, extra);
        return operation_rest(s, rows, d, n);
    }
    put_row(
        rows,
        n,
        KIND_OPERATION,
        c.start,
        0,
        NO_PARENT,
        d.start,
        d.end - d.start,
        extra,
    );
    let e = d.past(s, n + 1)?;
    operation_rest(s, rows, e, n)
}

// OperationDefinition without its type, at its {
fn short_operation(s: &[u8], rows: &mut [u32], c: Cursor) -> Result<Cursor, Refusal>
    requires { Ready s.now rows.old c no_parent × (c.kind ≡ kind_of brace_l) }
    ensures { CountedSaid 1 s.now rows.old rows.new c no_parent most_levels (nt Definition ∷ []) stays any_counts same_fragments result }
{
    let n = c.rows;
    if n == MOST_ROWS {
        return Err(Refusal::TooManyRows(c.start));
    }
    put_row(
        rows,
        n,
        KIND_OPERATION,
        c.start,
        0,
        NO_PARENT,
        0,
        0,
        EXTRA_QUERY,
    );
    let d = Cursor {
        kind: c.kind,
        start: c.start,
        end: c.end,
        stop: c.stop,
        rows: n + 1,
    };
    let e = selection_set(s, rows, d, n, MOST_LEVELS)?;
    put_end(rows, n, e.stop);
    Ok(e)
}

// FragmentDefinition, at its `fragment`, the one after `before` others
fn fragment(s: &[u8], rows: &mut [u32], c: Cursor, before: u32) -> Result<Cursor, Refusal>
    requires { Ready s.now rows.old c no_parent × AtFragment s.now c }
    ensures { CountedSaid 1 s.now rows.old rows.new c no_parent most_levels (nt Definition ∷ []) stays (fragments_are before) (fragments_become (before + 1)) result }
{
    let n = c.rows;
    if n == MOST_ROWS {
        return Err(Refusal::TooManyRows(c.start));
    }
    if before == MOST_FRAGMENTS {
        return Err(Refusal::TooMany(c.start));
    }
    let name = c.past(s, n + 1)?;
    if names_fragment(s, name) {
        put_row(
            rows,
            n,
            KIND_FRAGMENT,
            c.start,
            0,
            NO_PARENT,
            name.start,
            name.end - name.start,
            0,
        );
        return fragment_rest(s, rows, name, n);
    }
    no_going(name)
}

// FragmentDefinition from its name on: TypeCondition Directives? SelectionSet
fn fragment_rest(s: &[u8], rows: &mut [u32], c: Cursor, n: u32) -> Result<Cursor, Refusal>
    requires { Ready s.now rows.old c n × (n < most_rows) × (names_fragment s.now c ≡ true) }
    ensures { CountedSaid 1 s.now rows.old rows.new c n most_levels (nt FragmentName ∷ nt TypeCondition ∷ body_stack) pop any_counts same_counts result }
{
    let m = c.rows;
    let d = c.past(s, m)?;
    if d.kind != TOKEN_NAME {
        return no_going(d);
    }
    if names_fragment(s, d) {
        return no_going(d);
    }
    let e = condition(s, rows, d, n, MOST_LEVELS)?;
    definition_body(s, rows, e, n)
}

// Which word the token looked at is
fn word_at(s: &[u8], c: Cursor) -> u32
    requires { (c.start ≤ c.end) × (c.end ≤ length s.now) }
    ensures { result ≡ word_at s.now c }
{
    if c.kind == TOKEN_NAME {
        return text_scan::word(s, c.start as usize, c.end as usize);
    }
    WORD_OTHER
}

// Definition, after `before` fragments
fn definition(s: &[u8], rows: &mut [u32], c: Cursor, before: u32) -> Result<Cursor, Refusal>
    requires { Ready s.now rows.old c no_parent }
    ensures { CountedSaid 1 s.now rows.old rows.new c no_parent most_levels (nt Definition ∷ []) stays (fragments_are before) (fragments_become (fragments_after s.now c before)) result }
{
    if c.kind == TOKEN_BRACE_OPEN {
        return short_operation(s, rows, c);
    }
    let w = word_at(s, c);
    if w == WORD_QUERY {
        return operation(s, rows, c, EXTRA_QUERY);
    }
    if w == WORD_FRAGMENT {
        return fragment(s, rows, c, before);
    }
    if w == WORD_MUTATION {
        return operation(s, rows, c, EXTRA_MUTATION);
    }
    if w == WORD_SUBSCRIPTION {
        return operation(s, rows, c, EXTRA_SUBSCRIPTION);
    }
    no_going(c)
}

// How many fragments there are after a definition at which c stood
fn fragments_after(s: &[u8], c: Cursor, before: u32) -> u32
    requires { (c.start ≤ c.end) × (c.end ≤ length s.now) × (before ≤ most_text) }
    ensures { result ≡ fragments_after s.now c before }
{
    if word_at(s, c) == WORD_FRAGMENT {
        return before + 1;
    }
    before
}

// The cursor at the beginning of a text. It scans itself: with two callers `scan` stays apart, and `past` is small enough to be inlined
fn begin(s: &[u8]) -> Result<Cursor, Refusal>
    requires { length s.now ≤ most_text }
    ensures { result ≡ moved_to 0 0 (head_of (from s.now 0)) }
{
    let n = text_tokens::scan(s, 0);
    let t = text_tokens::unpacked(n);
    let Ok(token) = t else {
        return located(t);
    };
    Ok(Cursor {
        kind: token.kind,
        start: token.start as u32,
        end: token.end as u32,
        stop: 0,
        rows: 0,
    })
}

// Document: the rows are written, and the cursor of an Ok counts them
pub fn document(s: &[u8], rows: &mut [u32]) -> Result<Cursor, Refusal>
    requires { (length s.now ≤ most_text) × (length rows.old ≡ rows_size) }
    ensures { Ended Document s.now rows.old rows.new result }
{
    let mut c = begin(s)?;
    let mut fragments: u32 = 0;
    loop {
        let next = definition(s, rows, c, fragments)?;
        if next.kind == TOKEN_END {
            return Ok(next);
        }
        fragments = fragments_after(s, c, fragments);
        c = next;
    }
}

// VariablesText: one constant object value
pub fn variables_text(s: &[u8], rows: &mut [u32]) -> Result<Cursor, Refusal>
    requires { (length s.now ≤ most_text) × (length rows.old ≡ rows_size) }
    ensures { Ended VariablesText s.now rows.old rows.new result }
{
    let first = begin(s)?;
    if first.kind != TOKEN_BRACE_OPEN {
        return no_going(first);
    }
    let d = text_values::value(s, rows, first, NO_PARENT, MOST_LEVELS, true)?;
    if d.kind != TOKEN_END {
        return no_going(d);
    }
    Ok(d)
}
