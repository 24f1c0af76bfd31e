// The values that are held of variables, and which entries of a row are given: those of a name, the first that is repeated or unknown, and
// what is answered where nothing is given.
#![tactic(auto)]

ghost use Rattle.std.specs.Prelude.{◌≡◌, ◌⊎◌, List, [], ℕ, ◌+◌, ◌-◌, ◌*◌, ◌≤◌, ◌<◌, length};
ghost use Rattle.paper.specs.Numbers.{row_size, kind_variable, kind_null};
ghost use Rattle.paper_query.specs.Constructs.{name_of};
ghost use Rattle.table_fields.specs.Fields.{Bounds};
ghost use Rattle.table_fields.specs.Wrappers.{pack_of};
ghost use Rattle.table_book.specs.Book.{part};
ghost use Rattle.query_rows.specs.Rowed.{cell, row_in, doc_of, Rowed, Sized, Decides};
ghost use Rattle.paper_values.specs.Values.{Value, Due as Dues, Got, no_pairs};
ghost use Rattle.paper_values.specs.Coercion.{heads, repeated_entry, unknown_entry};
ghost use Rattle.paper_values.specs.Computed.{missing_due};
ghost use Rattle.paper_values.specs.RowValues.{entries_from};
ghost use Rattle.value_kinds.specs.Dues.{placed_at};
ghost use Rattle.value_entries.specs.Entered.{Treed, Marks, dues_by};
ghost use Rattle.value_held.specs.Given.{Vars, leaves_out, ToldPairs};
ghost use Rattle.value_held.specs.Holding.{Names, Knows, Gives, held_from};

use paper::{KIND_NULL, KIND_VARIABLE, ROW_SIZE, WRAP_BASE, WRAP_NON_NULL};
use paper_values::REASON_MISSING;
use value_entries::{find_entry, first_repeated, first_unknown};
use value_kinds::{Due, RefusedRow};

// The numbers held of a variable: where its name starts, and its size; the text of its value, and the value's row there; sort, number and
// wrappers of its type.
pub const HELD_NAME: usize = 0;

pub const HELD_SIZE: usize = 1;

pub const HELD_TEXT: usize = 2;

pub const HELD_ROW: usize = 3;

pub const HELD_SORT: usize = 4;

pub const HELD_NUMBER: usize = 5;

pub const HELD_WRAPPERS: usize = 6;

// Number c of variable j.
pub fn cell_of(held: &[u32], many: usize, j: usize, c: usize) -> u32
    requires { (row_size * many ≤ length held.now) × (j < many) × (c < row_size) }
    ensures { result ≡ cell held.now j c }
{
    held[ROW_SIZE * j + c]
}

// The type of variable j.
pub fn due_held(held: &[u32], many: usize, j: usize) -> Due
    requires { (row_size * many ≤ length held.now) × (j < many) }
    ensures { (result.sort ≡ cell held.now j 4) × (result.number ≡ cell held.now j 5) × (result.wrappers ≡ cell held.now j 6) }
{
    let number = cell_of(held, many, j, HELD_NUMBER) as usize;
    Due {
        sort: cell_of(held, many, j, HELD_SORT),
        number: number,
        wrappers: cell_of(held, many, j, HELD_WRAPPERS),
    }
}

// The first variable whose name is the l bytes of s from `at` on; as many as there are if there is none.
fn find_held(s: &[u8], held: &[u32], many: usize, at: usize, l: usize) -> usize
    requires { Names s.now held.now many × (at + l ≤ length s.now) }
    ensures { result ≡ held_from s.now held.now (part s.now at l) many 0 }
{
    for j in 0..many {
        let a = cell_of(held, many, j, HELD_NAME) as usize;
        let size = cell_of(held, many, j, HELD_SIZE) as usize;
        if table_book::is_text(s, at, l, s, a, size) {
            return j;
        }
    }
    many
}

// The variable that row i names; as many as there are if it has no value.
pub fn held_at(s: &[u8], rows: &[u32], n: usize, i: usize, held: &[u32], many: usize) -> usize
    requires { Rowed s.now rows.now n × Names s.now held.now many }
    ensures { result ≡ held_from s.now held.now (name_of (doc_of s.now rows.now n) i) many 0 }
{
    let at = query_rows::name_of(rows, n, i) as usize;
    let l = query_rows::size_of(rows, n, i) as usize;
    find_held(s, held, many, at, l)
}

// Is the value of row i a variable without a value, which leaves its entry out?
fn is_left_out(
    s: &[u8],
    rows: &[u32],
    n: usize,
    i: usize,
    levels: usize,
    held: &[u32],
    many: usize,
) -> bool
    requires { Rowed s.now rows.now n × Names s.now held.now many }
    ensures { (vars : Vars) → Knows s.now held.now many vars → result ≡ leaves_out vars (doc_of s.now rows.now n) levels i }
{
    if levels == 0 {
        return false;
    }
    if query_rows::kind_of(rows, n, i) != KIND_VARIABLE {
        return false;
    }
    many <= held_at(s, rows, n, i, held, many)
}

// The entry of this kind right below row h whose name is the l bytes of t from `at` on, and that is not left out; n if there is none.
pub fn given(
    s: &[u8],
    rows: &[u32],
    n: usize,
    past: &[u32],
    h: usize,
    k: usize,
    kind: u32,
    held: &[u32],
    many: usize,
    t: &[u8],
    at: usize,
    l: usize,
) -> usize
    requires { Treed s.now rows.now n past.now × Names s.now held.now many × (at + l ≤ length t.now) × (h ≤ n) }
    ensures { Gives s.now held.now many (doc_of s.now rows.now n) n k kind h (part t.now at l) result }
{
    if n <= h {
        return n;
    }
    let c = find_entry(s, rows, n, past, h, kind, t, at, l);
    if n <= c {
        return n;
    }
    if is_left_out(s, rows, n, c + 1, k, held, many) {
        return n;
    }
    c
}

// The first entry of this kind right below row h whose name an earlier one has; n if there is none. Below a row that is not there stands nothing.
pub fn find_again(s: &[u8], rows: &[u32], n: usize, past: &[u32], h: usize, kind: u32) -> usize
    requires { Treed s.now rows.now n past.now × (h ≤ n) }
    ensures { (text : ℕ) (read : ℕ → Value) → Marks n text (repeated_entry [] (heads (entries_from text (doc_of s.now rows.now n) read kind h (n - (h + 1)) (h + 1)))) result }
{
    if n <= h {
        return n;
    }
    first_repeated(s, rows, n, past, h, kind)
}

// The first of them whose name nothing has that this content makes due; n if there is none.
pub fn find_alien(
    t: &[u8],
    start: usize,
    end: usize,
    s: &[u8],
    rows: &[u32],
    n: usize,
    past: &[u32],
    h: usize,
    kind: u32,
) -> usize
    requires { Bounds t.now start end × Treed s.now rows.now n past.now × (h ≤ n) }
    ensures { (text : ℕ) (read : ℕ → Value) → Marks n text (unknown_entry (dues_by kind t.now start end) (heads (entries_from text (doc_of s.now rows.now n) read kind h (n - (h + 1)) (h + 1)))) result }
{
    if n <= h {
        return n;
    }
    first_unknown(t, start, end, s, rows, n, past, h, kind)
}

// Nothing is given for what is due in row h: nothing is written, or Err where it is required.
pub fn lacking(limit: usize, from: usize, h: usize, wrappers: u32) -> Result<usize, RefusedRow>
    requires { from ≤ limit + 1 }
    ensures { (text : ℕ) (what : Dues) (p : List ℕ) → pack_of what.type ≡ wrappers → ToldPairs text limit (missing_due (placed_at text h) what (Got no_pairs)) from p p result }
{
    if wrappers % WRAP_BASE == WRAP_NON_NULL {
        return Err(RefusedRow {
            row: h,
            why: REASON_MISSING,
        });
    }
    Ok(from)
}

// Is the constant of this row no more than null? A variable has no value in a constant.
pub fn is_null(rows: &[u32], n: usize, i: usize) -> bool
    requires { Sized rows.now n }
    ensures { Decides result (((row_in rows.now n i).kind ≡ kind_null) ⊎ ((row_in rows.now n i).kind ≡ kind_variable)) }
{
    let kind = query_rows::kind_of(rows, n, i);
    if kind == KIND_NULL {
        return true;
    }
    kind == KIND_VARIABLE
}
