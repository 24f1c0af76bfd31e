// `gw_walk`: walks a plan for an object type.
ghost use Rattle.paper_plan.specs.WalkCalls.{Walked};

// C: uint32_t gw_walk(const uint8_t *table, size_t table_len, const uint32_t *plan, size_t plan_len, uint32_t object,
//                     const uint32_t *blocks, size_t blocks_len, const uint8_t *variables, size_t variables_len,
//                     uint32_t *pairs, size_t pairs_len, uint32_t *report, size_t report_len);
//   table       read, of any length and content
//   plan        read, of any length and content: the first 14,338 numbers
//   object      the number of the object type's record in the table
//   blocks      read, of any length and content: the numbers of the blocks to walk, in this order
//   variables   read, of any length and content: the first 64 bytes, 1 for true
//   pairs       lent, 1,024 numbers are written; refusals 1 and 2 leave them
//   report      lent, 8 numbers are written; with fewer nothing is touched and the answer is 1
// Answers 0 and the number of pairs, or a refusal's number and what it shows.
pub fn gw_walk(
    table: &[u8],
    plan: &[u32],
    object: u32,
    blocks: &[u32],
    variables: &[u8],
    pairs: &mut [u32],
    report: &mut [u32],
) -> u32
    ensures { Walked table.now plan.now object blocks.now variables.now pairs.old report.old pairs.new report.new result }
{
    plan_walk_answer::answer(table, plan, object, blocks, variables, pairs, report)
}
