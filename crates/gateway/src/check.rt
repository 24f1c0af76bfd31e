// `gw_check`: judges a document by a type table.
ghost use Rattle.paper_query.specs.DocumentCalls.{CheckedDocument};

// C: uint32_t gw_check(const uint8_t *table, size_t table_len, const uint8_t *document, size_t document_len,
//                      uint32_t *rows, size_t rows_len, uint32_t *report, size_t report_len);
//   table      read, of any length and content
//   document   read, of any length and content
//   rows       lent, 14,336 numbers are written; refusals 1 and 2 leave them
//   report     lent, 8 numbers are written; with fewer nothing is touched and the answer is 1
// Answers 0 and the number of rows, or a refusal's number and what it shows.
pub fn gw_check(table: &[u8], document: &[u8], rows: &mut [u32], report: &mut [u32]) -> u32
    ensures { CheckedDocument table.now document.now rows.old report.old rows.new report.new result }
{
    query_answer::answer(table, document, rows, report)
}
