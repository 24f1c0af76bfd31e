// The whole answer to `gw_walk`: the sizes are tested, then the table, and the plan is walked by it.
#![tactic(auto)]

ghost use Rattle.std.specs.Prelude.{◌≡◌, ◌≤◌, length};
ghost use Rattle.paper_table.specs.TableNumbers.{most_table};
ghost use Rattle.table_book.specs.Book.{book_size};
ghost use Rattle.paper_plan.specs.WalkNumbers.{pairs_size};
ghost use Rattle.paper_plan.specs.WalkCalls.{WalkLent, Walked};

use paper::{REFUSE_BUFFER, REPORT_SIZE, Refusal};
use paper_plan::PAIRS_SIZE;
use paper_table::{INPUT_TABLE, MOST_TABLE, TableAnswer};
use plan_walk_told::walk_plan;
use table_book::BOOK_SIZE;

// Judges a table, and walks a plan by it. The pairs are of their fixed size; the book is scratch.
fn walk_with(
    t: &[u8],
    book: &mut [u32],
    plan: &[u32],
    object: u32,
    blocks: &[u32],
    variables: &[u8],
    pairs: &mut [u32],
    report: &mut [u32],
) -> u32
    requires { WalkLent pairs.old report.old × (length t.now ≤ most_table) × (length pairs.old ≡ pairs_size) × (length book.old ≡ book_size) }
    ensures { Walked t.now plan.now object blocks.now variables.now pairs.old report.old pairs.new report.new result }
{
    let a = table_answer::judge_with(t, book);
    let TableAnswer::Accepted = a else {
        call_buffers::clear(pairs, 0);
        return call_report::tell_table(report, a);
    };
    walk_plan(t, book, plan, object, blocks, variables, pairs, report)
}

// The same with a book of its own.
fn walk(
    t: &[u8],
    plan: &[u32],
    object: u32,
    blocks: &[u32],
    variables: &[u8],
    pairs: &mut [u32],
    report: &mut [u32],
) -> u32
    requires { WalkLent pairs.old report.old × (length t.now ≤ most_table) × (length pairs.old ≡ pairs_size) }
    ensures { Walked t.now plan.now object blocks.now variables.now pairs.old report.old pairs.new report.new result }
{
    let mut book = [0u32; BOOK_SIZE];
    walk_with(t, &mut book, plan, object, blocks, variables, pairs, report)
}

// What `gw_walk` answers: the sizes are tested, then the plan is walked.
pub fn answer(
    table: &[u8],
    plan: &[u32],
    object: u32,
    blocks: &[u32],
    variables: &[u8],
    pairs: &mut [u32],
    report: &mut [u32],
) -> u32
    ensures { Walked table.now plan.now object blocks.now variables.now pairs.old report.old pairs.new report.new result }
{
    if report.len() < REPORT_SIZE {
        return REFUSE_BUFFER;
    }
    if pairs.len() < PAIRS_SIZE {
        return call_report::tell_refusal(report, Refusal::Buffer);
    }
    if MOST_TABLE < table.len() {
        return call_report::tell_refusal(report, Refusal::OverLength(INPUT_TABLE));
    }
    walk(
        table,
        plan,
        object,
        blocks,
        variables,
        &mut pairs[..PAIRS_SIZE],
        report,
    )
}
