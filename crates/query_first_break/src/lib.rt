// Judges the rows of a document in order, all made ready: the first row that breaks a rule.
#![tactic(auto)]

ghost use Rattle.paper_table.specs.Types.{table_of};
ghost use Rattle.paper_query.specs.QueryRules.{Judged};
ghost use Rattle.query_rows.specs.Rowed.{doc_of};
ghost use Rattle.query_row_verdict.specs.Ready.{Ready};

use paper_query::QueryAnswer;
use query_row_verdict::rule_at;

// What is said of a document's rows, all made ready: the first row that breaks a rule, and its least rule.
pub fn judge_rows(
    t: &[u8],
    book: &[u32],
    s: &[u8],
    rows: &[u32],
    n: usize,
    first: &[u16],
    next: &[u16],
    firstk: &[u16],
    nextk: &[u16],
    inside: &[u16],
    at: &[u16],
    es: &[u16],
    target: &[u16],
    flags: &[u16],
) -> QueryAnswer
    requires { Ready t.now book.now s.now rows.now n first.now next.now firstk.now nextk.now inside.now at.now es.now target.now flags.now }
    ensures { Judged (table_of t.now) (doc_of s.now rows.now n) result }
{
    for i in 0..n {
        let rule = rule_at(
            t, book, s, rows, n, first, next, firstk, nextk, inside, at, es, target, flags, i,
        );
        if rule != 0 {
            return QueryAnswer::Breaks {
                row: i as u32,
                rule: rule,
            };
        }
    }
    QueryAnswer::Fits
}
