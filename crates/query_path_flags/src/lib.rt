// The query rules that speak of paths, flagged at each row: makes ready what `query_path_rules` asks for, and nothing above does.
// All of it is scratch, made with room for few rows where there are few: less is cleared then.
#![tactic(auto)]

ghost use Rattle.std.specs.Prelude.{◌≡◌, ◌≤◌, ◌<◌, length};
ghost use Rattle.paper_table.specs.Types.{table_of};
ghost use Rattle.query_rows.specs.Rowed.{rows_in, doc_of, Rowed, room_of};
ghost use Rattle.query_links.specs.Links.{Family, Kinds};
ghost use Rattle.query_places.specs.Placed.{Placed};
ghost use Rattle.query_spreads.specs.Spreads.{Targeted};
ghost use Rattle.query_alike.specs.Flags.{Flagged};

use query_links::{FEW_ROWS, ROWS};

// Finds the definition that each row stands in and the spreads that stand in each, and flags by them.
fn flag_with(
    t: &[u8],
    s: &[u8],
    rows: &[u32],
    n: usize,
    first: &[u16],
    next: &[u16],
    firstk: &[u16],
    nextk: &[u16],
    at: &[u16],
    es: &[u16],
    inside: &[u16],
    target: &[u16],
    owner: &mut [u16],
    firsts: &mut [u16],
    nexts: &mut [u16],
    mark: &mut [u16],
    stack: &mut [u16],
    flag: &mut [u16],
)
    requires { Rowed s.now rows.now n × Family (rows_in rows.now n) first.now next.now × Kinds (rows_in rows.now n) firstk.now nextk.now × Placed t.now s.now rows.now n at.now es.now inside.now × Targeted (doc_of s.now rows.now n) target.now × (length owner.old ≡ room_of n) × (length firsts.old ≡ room_of n) × (length nexts.old ≡ room_of n) × (length mark.old ≡ room_of n) × (length stack.old ≡ room_of n) × (length flag.old ≡ room_of n) }
    ensures { Flagged (table_of t.now) (doc_of s.now rows.now n) flag.new }
{
    query_spreads::owners(s, rows, n, owner);
    query_spreads::spreads(s, rows, n, owner, firsts, nexts);
    query_path_rules::flags(
        t, s, rows, n, first, next, firstk, nextk, at, es, inside, owner, target, firsts, nexts,
        mark, stack, flag,
    );
}

// Flags the rows, in lists of this length: few for few rows, so that little is cleared.
fn flag_in<const ROOM: usize>(
    t: &[u8],
    s: &[u8],
    rows: &[u32],
    n: usize,
    first: &[u16],
    next: &[u16],
    firstk: &[u16],
    nextk: &[u16],
    at: &[u16],
    es: &[u16],
    inside: &[u16],
    target: &[u16],
    flag: &mut [u16],
)
    requires { Rowed s.now rows.now n × Family (rows_in rows.now n) first.now next.now × Kinds (rows_in rows.now n) firstk.now nextk.now × Placed t.now s.now rows.now n at.now es.now inside.now × Targeted (doc_of s.now rows.now n) target.now × (length flag.old ≡ room_of n) × (ROOM ≡ room_of n) }
    ensures { Flagged (table_of t.now) (doc_of s.now rows.now n) flag.new }
{
    let mut owner = [0u16; ROOM];
    let mut firsts = [0u16; ROOM];
    let mut nexts = [0u16; ROOM];
    let mut mark = [0u16; ROOM];
    let mut stack = [0u16; ROOM];
    flag_with(
        t,
        s,
        rows,
        n,
        first,
        next,
        firstk,
        nextk,
        at,
        es,
        inside,
        target,
        &mut owner,
        &mut firsts,
        &mut nexts,
        &mut mark,
        &mut stack,
        flag,
    );
}

// Flags the rows of a document, where the types due at places are known and where spreads lead.
pub fn flags(
    t: &[u8],
    s: &[u8],
    rows: &[u32],
    n: usize,
    first: &[u16],
    next: &[u16],
    firstk: &[u16],
    nextk: &[u16],
    at: &[u16],
    es: &[u16],
    inside: &[u16],
    target: &[u16],
    flag: &mut [u16],
)
    requires { Rowed s.now rows.now n × Family (rows_in rows.now n) first.now next.now × Kinds (rows_in rows.now n) firstk.now nextk.now × Placed t.now s.now rows.now n at.now es.now inside.now × Targeted (doc_of s.now rows.now n) target.now × (length flag.old ≡ room_of n) }
    ensures { Flagged (table_of t.now) (doc_of s.now rows.now n) flag.new }
{
    if n <= FEW_ROWS {
        return flag_in::<FEW_ROWS>(
            t, s, rows, n, first, next, firstk, nextk, at, es, inside, target, flag,
        );
    }
    flag_in::<ROWS>(
        t, s, rows, n, first, next, firstk, nextk, at, es, inside, target, flag,
    );
}
