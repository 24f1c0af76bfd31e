// `gw_parse` for C: the call of the crate gateway.
ghost use Rattle.paper.specs.Calls.{Parsed};

// C: uint32_t gw_parse(const uint8_t *document, size_t document_len,
//                      uint32_t *rows, size_t rows_len, uint32_t *report, size_t report_len);
//   document   read, of any length and content
//   rows       lent, 14,336 numbers are written; refusals 1 and 2 leave them
//   report     lent, 8 numbers are written; with fewer nothing is touched and the answer is 1
// Answers 0 and the number of rows, or a refusal's number and what it shows.
#[unsafe(no_mangle)]
pub extern "C" fn gw_parse(document: &[u8], rows: &mut [u32], report: &mut [u32]) -> u32
    ensures { Parsed document.now rows.old report.old rows.new report.new result }
{
    gateway::parse::gw_parse(document, rows, report)
}
