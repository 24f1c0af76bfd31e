// `gw_check_table` for C: the call of the crate gateway.
ghost use Rattle.paper_table.specs.TableCalls.{Checked};

// C: uint32_t gw_check_table(const uint8_t *table, size_t table_len, uint32_t *report, size_t report_len);
//   table    read, of any length and content
//   report   lent, 8 numbers are written; with fewer nothing is touched and the answer is 1
// Answers 0 for a table that keeps to its framing, its sizes and the schema rules, or a refusal's number and what it shows.
#[unsafe(no_mangle)]
pub extern "C" fn gw_check_table(table: &[u8], report: &mut [u32]) -> u32
    ensures { Checked table.now report.old report.new result }
{
    gateway::check_table::gw_check_table(table, report)
}
