// `gw_plan`: translates an operation of a document into a plan.
ghost use Rattle.paper_plan.specs.PlanCalls.{Planned};

// C: uint32_t gw_plan(const uint8_t *table, size_t table_len, const uint8_t *document, size_t document_len,
//                     const uint8_t *operation, size_t operation_len,
//                     uint32_t *plan, size_t plan_len, uint32_t *report, size_t report_len);
//   table       read, of any length and content
//   document    read, of any length and content
//   operation   read, the operation's name; empty for the only one
//   plan        lent, 14,338 numbers are written; refusals 1 and 2 leave them
//   report      lent, 8 numbers are written; with fewer nothing is touched and the answer is 1
// Answers 0 and the numbers of blocks and steps, or a refusal's number and what it shows.
pub fn gw_plan(
    table: &[u8],
    document: &[u8],
    operation: &[u8],
    plan: &mut [u32],
    report: &mut [u32],
) -> u32
    ensures { Planned table.now document.now operation.now plan.old report.old plan.new report.new result }
{
    plan_answer::answer(table, document, operation, plan, report)
}
