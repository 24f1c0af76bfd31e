// Writes what a row holds that is no null, no variable and no object of fields, at the base of a type.
#![tactic(auto)]

ghost use Rattle.std.specs.Prelude.{◌≡◌, false, List, ℕ, ◌+◌, ◌≤◌, ◌<◌, length};
ghost use Rattle.std.proofs.Math.Option.{Option};
ghost use Rattle.paper.specs.Numbers.{kind_variable, kind_null};
ghost use Rattle.paper_table.specs.References.{named};
ghost use Rattle.paper_table.specs.Types.{table_of};
ghost use Rattle.table_book.specs.Book.{count_in};
ghost use Rattle.table_types.specs.Booked.{Booked};
ghost use Rattle.query_rows.specs.Rowed.{row_in, doc_of, Rowed};
ghost use Rattle.paper_values.specs.Values.{Name, Value, Tree};
ghost use Rattle.paper_values.specs.Kinds.{kind_of_type};
ghost use Rattle.paper_values.specs.Computed.{coerce};
ghost use Rattle.paper_values.specs.RowValues.{value_by};
ghost use Rattle.value_writing.specs.Writing.{Room};
ghost use Rattle.value_kinds.specs.Dues.{Sorted, told, Told};
ghost use Rattle.value_tokens.specs.Spans.{Spanned, takes_fields, Tokened};

use paper::{
    EXTRA_TRUE, KIND_BOOLEAN, KIND_ENUM, KIND_FLOAT, KIND_INTEGER, KIND_LIST, KIND_STRING,
    KIND_VARIABLE,
};
use paper_values::REASON_KIND;
use value_kinds::put_enum;
use value_leaves::{SORT_INPUT, put_decimal, put_integer, put_text, put_truth};

// Is a row of this kind an object, where one of this sort is due?
pub fn takes_fields(kind: u32, sort: u32) -> bool
    ensures { result ≡ takes_fields kind sort }
{
    if sort != SORT_INPUT {
        return false;
    }
    if kind < KIND_VARIABLE {
        return true;
    }
    KIND_LIST < kind
}

// Writes the number or string token of row i. The place past what was written, or Err with the reason why it is refused.
fn put_token(
    s: &[u8],
    rows: &[u32],
    n: usize,
    i: usize,
    sort: u32,
    out: &mut [u8],
    limit: usize,
    from: usize,
) -> Result<usize, u32>
    requires { Spanned s.now rows.now n × Room limit from out.old }
    ensures { Tokened (doc_of s.now rows.now n) i sort limit from out.old out.new result }
{
    let kind = query_rows::kind_of(rows, n, i);
    let start = query_rows::start_of(rows, n, i) as usize;
    let stop = query_rows::end_of(rows, n, i) as usize;
    if kind == KIND_INTEGER {
        return put_integer(out, limit, from, sort, &s[start..stop]);
    }
    if kind == KIND_FLOAT {
        return put_decimal(out, limit, from, sort, &s[start..stop]);
    }
    if kind == KIND_STRING {
        return put_text(out, limit, from, sort, s, start, stop);
    }
    Err(REASON_KIND)
}

// Writes row i's value, that is no null and no variable, where a type of this sort and number is due, and not fields of an object.
// The place past what was written, or Err with the reason why the row is refused.
pub fn put_base(
    t: &[u8],
    book: &[u32],
    s: &[u8],
    rows: &[u32],
    n: usize,
    i: usize,
    sort: u32,
    number: usize,
    out: &mut [u8],
    limit: usize,
    from: usize,
) -> Result<usize, u32>
    requires { Booked t.now book.now × Rowed s.now rows.now n × Spanned s.now rows.now n × (7 ≤ sort → number < count_in book.now) × Room limit from out.old
        × ((row_in rows.now n i).kind ≡ kind_variable → ⊥) × ((row_in rows.now n i).kind ≡ kind_null → ⊥) × (takes_fields (row_in rows.now n i).kind sort ≡ false) }
    ensures { (vars : Name → Option Tree) (text : ℕ) (read : ℕ → Value) (name : Name) → Sorted t.now book.now name sort number →
        Told text limit (coerce (kind_of_type (table_of t.now)) vars (value_by text (doc_of s.now rows.now n) read i) (named name)) from out.old out.new (told i result) }
{
    let kind = query_rows::kind_of(rows, n, i);
    if kind == KIND_BOOLEAN {
        let extra = query_rows::extra_of(rows, n, i);
        return put_truth(out, limit, from, sort, extra == EXTRA_TRUE);
    }
    if kind == KIND_ENUM {
        let at = query_rows::name_of(rows, n, i) as usize;
        let l = query_rows::size_of(rows, n, i) as usize;
        return put_enum(t, book, s, at, l, sort, number, out, limit, from);
    }
    put_token(s, rows, n, i, sort, out, limit, from)
}
