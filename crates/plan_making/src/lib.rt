// Makes the plan of an operation of a document that was opened: links its rows, finds its blocks, fills the table, then writes the plan.
// What is lent mutably is scratch but the plan. The document's rows stand in the plan's buffer until all is read off them.
#![tactic(auto)]

ghost use Rattle.std.specs.Prelude.{◌≡◌, ◌∷◌, ◌+◌, ◌*◌, ◌≤◌, ◌<◌, length, take};
ghost use Rattle.paper.specs.Numbers.{rows_size, most_rows};
ghost use Rattle.paper_table.specs.Types.{table_of};
ghost use Rattle.table_types.specs.Booked.{Booked};
ghost use Rattle.query_rows.specs.Rowed.{rows_in, doc_of, Rowed, room_of};
ghost use Rattle.query_links.specs.Links.{firsts_size, kinds_size, Family, Kinds};
ghost use Rattle.query_spreads.specs.Owners.{Defines};
ghost use Rattle.paper_plan.specs.PlanNumbers.{plan_size};
ghost use Rattle.plan_theory.proofs.Plannable.{Plannable};
ghost use Rattle.plan_keys.specs.Keyed.{buckets};
ghost use Rattle.plan_blocks.specs.Blocks.{BlocksTo};
ghost use Rattle.plan_tests.specs.Right.{TableTo};
ghost use Rattle.plan_writing.specs.Writing.{Tables, Holders, Writes};
ghost use Rattle.plan_making.specs.declared.TheConstants.{CELLS};
ghost use Rattle.plan_making.specs.Made.{PlanMade, Asked, Room, Prepared};

use paper::ROWS_SIZE;
use plan_keys::{BUCKETS, number_keys};
use plan_steps::ROW_CELLS;
use plan_writing::write_plan;
use query_links::{FEW_ROWS, FIRSTS, KINDS, ROWS};

// how many numbers the table has, for few rows and for all
const FEW_CELLS: usize = ROW_CELLS * FEW_ROWS;

const CELLS: usize = ROW_CELLS * ROWS;

// Lists the rows of the blocks behind the operation's in `target`, and says how many there are.
fn find_blocks(
    s: &[u8],
    rows: &[u32],
    n: usize,
    first: &[u16],
    next: &[u16],
    firstk: &[u16],
    nextk: &[u16],
    o: usize,
    owner: &mut [u16],
    mark: &mut [u16],
    target: &mut [u16],
    firsts: &mut [u16],
    nexts: &mut [u16],
    stack: &mut [u16],
) -> usize
    requires { Rowed s.now rows.now n × Family (rows_in rows.now n) first.now next.now × Kinds (rows_in rows.now n) firstk.now nextk.now × Defines (doc_of s.now rows.now n) o × Room n owner.old × Room n mark.old × Room n target.old × (length firsts.old ≡ firsts_size) × Room n nexts.old × Room n stack.old }
    ensures { BlocksTo (doc_of s.now rows.now n) o target.new result n }
{
    query_links::clear(mark, 0);
    query_spreads::owners(s, rows, n, owner);
    query_spreads::targets(s, rows, n, firstk, nextk, target);
    query_spreads::spreads(s, rows, n, owner, firsts, nexts);
    query_reach::reach(s, rows, n, target, firsts, nexts, mark, stack, o);
    plan_blocks::list_blocks(s, rows, n, first, next, owner, mark, o, target)
}

// Fills the table.
fn fill_cells(
    t: &[u8],
    book: &[u32],
    s: &[u8],
    rows: &[u32],
    n: usize,
    first: &[u16],
    next: &[u16],
    firstk: &[u16],
    nextk: &[u16],
    o: usize,
    ranks: &mut [u16],
    keys: &mut [u16],
    heads: &mut [u16],
    nexts: &mut [u16],
    cells: &mut [u16],
)
    requires { Asked t.now book.now s.now rows.now n o × Family (rows_in rows.now n) first.now next.now × Kinds (rows_in rows.now n) firstk.now nextk.now × Room n ranks.old × Room n keys.old × (length heads.old ≡ buckets) × Room n nexts.old × (12 * n ≤ length cells.old) }
    ensures { TableTo t.now s.now rows.now n o cells.new n }
{
    plan_rows::rank_fragments(rows, n, ranks);
    number_keys(s, rows, n, heads, nexts, keys);
    plan_tests::fill_table(
        t, book, s, rows, n, first, next, firstk, nextk, ranks, keys, o, cells,
    );
}

// Makes all ready that the writing of the plan asks; says how many blocks stand behind the operation's.
fn ready(
    t: &[u8],
    book: &[u32],
    s: &[u8],
    rows: &[u32],
    n: usize,
    o: usize,
    first: &mut [u16],
    next: &mut [u16],
    firstk: &mut [u16],
    nextk: &mut [u16],
    owner: &mut [u16],
    mark: &mut [u16],
    target: &mut [u16],
    firsts: &mut [u16],
    nexts: &mut [u16],
    stack: &mut [u16],
    cells: &mut [u16],
) -> usize
    requires { Asked t.now book.now s.now rows.now n o × (length first.old ≡ firsts_size) × Room n next.old × (length firstk.old ≡ kinds_size) × Room n nextk.old × Room n owner.old × Room n mark.old × Room n target.old × (length firsts.old ≡ firsts_size) × Room n nexts.old × Room n stack.old × (12 * n ≤ length cells.old) }
    ensures { Prepared t.now s.now rows.now n o first.new next.new cells.new target.new result }
{
    query_links::families(s, rows, n, first, next);
    query_links::kinds(rows, n, firstk, nextk);
    let m = find_blocks(
        s, rows, n, first, next, firstk, nextk, o, owner, mark, target, firsts, nexts, stack,
    );
    fill_cells(
        t,
        book,
        s,
        rows,
        n,
        first,
        next,
        firstk,
        nextk,
        o,
        owner,
        mark,
        &mut firsts[..BUCKETS],
        nexts,
        cells,
    );
    m
}

// Clears the plan's buffer and writes the plan; its count of steps, or 4,097 where there are more than 4,096.
fn write_cleared(
    cells: &[u16],
    n: usize,
    first: &[u16],
    next: &[u16],
    o: u16,
    out: &[u16],
    m: usize,
    opened: &mut [u16],
    begun: &mut [u16],
    plan: &mut [u32],
) -> usize
    requires { Tables cells.now n first.now next.now × Holders o out.now m × (length plan.old ≡ plan_size) × (n ≤ length opened.old) × (n ≤ length begun.old) }
    ensures { Writes cells.now n (o ∷ take m out.now) plan.new result }
{
    call_buffers::clear(plan, 0);
    write_plan(cells, n, first, next, o, out, m, opened, begun, plan)
}

// Makes the plan in lists of these lengths: few for few rows, so that little is cleared.
fn make_in<const ROOM: usize, const TABLE: usize>(
    t: &[u8],
    book: &[u32],
    s: &[u8],
    plan: &mut [u32],
    n: usize,
    o: usize,
) -> usize
    requires { Asked t.now book.now s.now (take rows_size plan.old) n o × (length plan.old ≡ plan_size) × (ROOM ≡ room_of n) × (12 * n ≤ TABLE) × (TABLE ≤ CELLS) }
    ensures { PlanMade (table_of t.now) (doc_of s.now (take rows_size plan.old) n) o plan.new result }
{
    let mut first = [0u16; FIRSTS];
    let mut next = [0u16; ROOM];
    let mut firstk = [0u16; KINDS];
    let mut nextk = [0u16; ROOM];
    let mut owner = [0u16; ROOM];
    let mut mark = [0u16; ROOM];
    let mut target = [0u16; ROOM];
    let mut firsts = [0u16; FIRSTS];
    let mut nexts = [0u16; ROOM];
    let mut stack = [0u16; ROOM];
    let mut cells = [0u16; TABLE];
    let m = ready(
        t,
        book,
        s,
        &plan[..ROWS_SIZE],
        n,
        o,
        &mut first,
        &mut next,
        &mut firstk,
        &mut nextk,
        &mut owner,
        &mut mark,
        &mut target,
        &mut firsts,
        &mut nexts,
        &mut stack,
        &mut cells,
    );
    write_cleared(
        &cells, n, &first, &next, o as u16, &target, m, &mut owner, &mut mark, plan,
    )
}

// Makes the plan of the operation of row o into the plan's buffer, which holds the n rows of the document; its count of steps, or 4,097 where there
// are more than 4,096.
pub fn make(t: &[u8], book: &[u32], s: &[u8], plan: &mut [u32], n: usize, o: usize) -> usize
    requires { Asked t.now book.now s.now (take rows_size plan.old) n o × (length plan.old ≡ plan_size) }
    ensures { PlanMade (table_of t.now) (doc_of s.now (take rows_size plan.old) n) o plan.new result }
{
    if n <= FEW_ROWS {
        return make_in::<FEW_ROWS, FEW_CELLS>(t, book, s, plan, n, o);
    }
    make_in::<ROWS, CELLS>(t, book, s, plan, n, o)
}
