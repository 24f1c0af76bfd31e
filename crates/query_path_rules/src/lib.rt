// The query rules 8 and 10, and 11 where variables are used: the least of them that each row breaks, as one number.
// One search from each fragment and each operation; then each variable is compared with the operations that reach it.
// Most variables are like one before them, in name, place and owner: these are not compared, but get its flag.
#![tactic(auto)]

ghost use Rattle.std.specs.Prelude.{◌≡◌, ◌+◌, length};
ghost use Rattle.paper.specs.Numbers.{kind_operation};
ghost use Rattle.paper_table.specs.Types.{table_of};
ghost use Rattle.query_rows.specs.Rowed.{row_in, rows_in, doc_of, Sized, room_of};
ghost use Rattle.query_links.specs.Links.{Kinds};
ghost use Rattle.query_spreads.specs.Spreads.{Graph};
ghost use Rattle.query_reach_pass.specs.Marks.{Stamped, Reached};
ghost use Rattle.query_alike.specs.Flags.{Circled, FlagsTo, LikenedTo, FragmentsTo, Known, Flagged};

use paper::{KIND_FRAGMENT, KIND_OPERATION, KIND_VARIABLE};
use paper_query::RULE_CIRCLE;
use query_alike::LIKE_FIRST;
use query_links::link_of;
use query_rules_10_11::NO_RULE;

// rule 8, as it is flagged
const CIRCLE: u16 = RULE_CIRCLE as u16;

// Judges every variable that is like none by the operation of row o, after the search from it.
fn judge_variables(
    t: &[u8],
    s: &[u8],
    rows: &[u32],
    n: usize,
    first: &[u16],
    next: &[u16],
    firstk: &[u16],
    nextk: &[u16],
    at: &[u16],
    es: &[u16],
    wrappers: &[u16],
    owner: &[u16],
    mark: &[u16],
    o: usize,
    flag: &mut [u16],
)
    requires { Known t.now s.now rows.now n first.now next.now at.now es.now wrappers.now owner.now × Kinds (rows_in rows.now n) firstk.now nextk.now × Reached (doc_of s.now rows.now n) o mark.now × ((row_in rows.now n o).kind ≡ kind_operation) × LikenedTo (table_of t.now) (doc_of s.now rows.now n) n o flag.old }
    ensures { LikenedTo (table_of t.now) (doc_of s.now rows.now n) n (o + 1) flag.new }
{
    let mut i = link_of(firstk, KIND_VARIABLE as usize);
    while i < n {
        let f = flag[i];
        if f < LIKE_FIRST {
            flag[i] = query_rules_10_11::lesser(
                t, s, rows, n, first, next, at, es, wrappers, owner, mark, o, i, f,
            );
        }
        i = link_of(nextk, i);
    }
}

// Judges every variable that is like none by every operation.
fn judge_operations(
    t: &[u8],
    s: &[u8],
    rows: &[u32],
    n: usize,
    first: &[u16],
    next: &[u16],
    firstk: &[u16],
    nextk: &[u16],
    at: &[u16],
    es: &[u16],
    wrappers: &[u16],
    owner: &[u16],
    target: &[u16],
    firsts: &[u16],
    nexts: &[u16],
    mark: &mut [u16],
    stack: &mut [u16],
    flag: &mut [u16],
)
    requires { Known t.now s.now rows.now n first.now next.now at.now es.now wrappers.now owner.now × Kinds (rows_in rows.now n) firstk.now nextk.now × Graph (doc_of s.now rows.now n) target.now firsts.now nexts.now × Stamped (doc_of s.now rows.now n) 0 mark.old × (length stack.old ≡ room_of n) × LikenedTo (table_of t.now) (doc_of s.now rows.now n) n 0 flag.old }
    ensures { LikenedTo (table_of t.now) (doc_of s.now rows.now n) n n flag.new }
{
    let mut o = link_of(firstk, KIND_OPERATION as usize);
    while o < n {
        query_reach::reach(s, rows, n, target, firsts, nexts, mark, stack, o);
        judge_variables(
            t, s, rows, n, first, next, firstk, nextk, at, es, wrappers, owner, mark, o, flag,
        );
        o = link_of(nextk, o);
    }
}

// Judges every variable by every operation: those that are like others by what is said of these.
fn judge_uses(
    t: &[u8],
    s: &[u8],
    rows: &[u32],
    n: usize,
    first: &[u16],
    next: &[u16],
    firstk: &[u16],
    nextk: &[u16],
    at: &[u16],
    es: &[u16],
    wrappers: &[u16],
    owner: &[u16],
    target: &[u16],
    firsts: &[u16],
    nexts: &[u16],
    mark: &mut [u16],
    stack: &mut [u16],
    flag: &mut [u16],
)
    requires { Known t.now s.now rows.now n first.now next.now at.now es.now wrappers.now owner.now × Kinds (rows_in rows.now n) firstk.now nextk.now × Graph (doc_of s.now rows.now n) target.now firsts.now nexts.now × Stamped (doc_of s.now rows.now n) 0 mark.old × (length stack.old ≡ room_of n) × FlagsTo (table_of t.now) (doc_of s.now rows.now n) n 0 flag.old }
    ensures { FlagsTo (table_of t.now) (doc_of s.now rows.now n) n n flag.new }
{
    query_alike::liken(
        t, s, rows, n, firstk, nextk, at, es, wrappers, owner, stack, flag,
    );
    judge_operations(
        t, s, rows, n, first, next, firstk, nextk, at, es, wrappers, owner, target, firsts, nexts,
        mark, stack, flag,
    );
    query_alike::settle(t, s, rows, n, firstk, nextk, flag);
}

// Rule 8 if the fragment of row i reaches itself, else none.
fn circle_of(
    s: &[u8],
    rows: &[u32],
    n: usize,
    target: &[u16],
    firsts: &[u16],
    nexts: &[u16],
    mark: &mut [u16],
    stack: &mut [u16],
    i: usize,
) -> u16
    requires { Sized rows.now n × Graph (doc_of s.now rows.now n) target.now firsts.now nexts.now × Stamped (doc_of s.now rows.now n) i mark.old × (length stack.old ≡ room_of n) }
    ensures { Circled (doc_of s.now rows.now n) i result × Stamped (doc_of s.now rows.now n) (i + 1) mark.new }
{
    if query_reach::circles(s, rows, n, target, firsts, nexts, mark, stack, i) {
        return CIRCLE;
    }
    NO_RULE
}

// Judges every fragment.
fn judge_fragments(
    s: &[u8],
    rows: &[u32],
    n: usize,
    firstk: &[u16],
    nextk: &[u16],
    target: &[u16],
    firsts: &[u16],
    nexts: &[u16],
    mark: &mut [u16],
    stack: &mut [u16],
    flag: &mut [u16],
)
    requires { Sized rows.now n × Kinds (rows_in rows.now n) firstk.now nextk.now × Graph (doc_of s.now rows.now n) target.now firsts.now nexts.now × Stamped (doc_of s.now rows.now n) 0 mark.old × (length stack.old ≡ room_of n) × (length flag.old ≡ room_of n) }
    ensures { FragmentsTo (doc_of s.now rows.now n) flag.old n flag.new }
{
    let mut f = link_of(firstk, KIND_FRAGMENT as usize);
    while f < n {
        flag[f] = circle_of(s, rows, n, target, firsts, nexts, mark, stack, f);
        f = link_of(nextk, f);
    }
}

// Judges fragments and variables. Marks rise within a round, so they are cleared between the two.
pub fn flags(
    t: &[u8],
    s: &[u8],
    rows: &[u32],
    n: usize,
    first: &[u16],
    next: &[u16],
    firstk: &[u16],
    nextk: &[u16],
    at: &[u16],
    es: &[u16],
    wrappers: &[u16],
    owner: &[u16],
    target: &[u16],
    firsts: &[u16],
    nexts: &[u16],
    mark: &mut [u16],
    stack: &mut [u16],
    flag: &mut [u16],
)
    requires { Known t.now s.now rows.now n first.now next.now at.now es.now wrappers.now owner.now × Kinds (rows_in rows.now n) firstk.now nextk.now × Graph (doc_of s.now rows.now n) target.now firsts.now nexts.now × (length mark.old ≡ room_of n) × (length stack.old ≡ room_of n) × (length flag.old ≡ room_of n) }
    ensures { Flagged (table_of t.now) (doc_of s.now rows.now n) flag.new }
{
    query_links::clear(flag, 0);
    query_links::clear(mark, 0);
    judge_fragments(
        s, rows, n, firstk, nextk, target, firsts, nexts, mark, stack, flag,
    );
    query_links::clear(mark, 0);
    judge_uses(
        t, s, rows, n, first, next, firstk, nextk, at, es, wrappers, owner, target, firsts, nexts,
        mark, stack, flag,
    );
}
