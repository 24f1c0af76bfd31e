// Whether two variables are alike, in name, place and owner: what operations say of the one, they say of the other.
#![tactic(auto)]

ghost use Rattle.std.specs.Prelude.{◌≡◌, true, ◌<◌, length, get_or, eqb};
ghost use Rattle.paper.specs.Numbers.{kind_variable};
ghost use Rattle.paper_table.specs.Types.{table_of};
ghost use Rattle.query_rows.specs.Rowed.{row_in, doc_of};
ghost use Rattle.query_alike_pair.specs.Alike.{Alike, Unlinked};

use query_rows::same_names;

// Is the same number kept for rows i and j?
fn same_number(kept: &[u16], i: usize, j: usize) -> bool
    requires { (i < length kept.now) × (j < length kept.now) }
    ensures { result ≡ eqb (get_or kept.now i 0) (get_or kept.now j 0) }
{
    kept[i] == kept[j]
}

// Is the variable of row i like that of row j: of the same owner, place and name? Numbers are compared first.
pub fn is_like(
    t: &[u8],
    s: &[u8],
    rows: &[u32],
    n: usize,
    at: &[u16],
    es: &[u16],
    wrappers: &[u16],
    owner: &[u16],
    i: usize,
    j: usize,
) -> bool
    requires { Unlinked t.now s.now rows.now n at.now es.now wrappers.now owner.now × ((row_in rows.now n i).kind ≡ kind_variable) × ((row_in rows.now n j).kind ≡ kind_variable) }
    ensures { result ≡ true → Alike (table_of t.now) (doc_of s.now rows.now n) i j }
{
    if !same_number(owner, i, j) {
        return false;
    }
    if !same_number(at, i, j) {
        return false;
    }
    if !same_number(wrappers, i, j) {
        return false;
    }
    same_names(s, rows, n, i, j)
}
