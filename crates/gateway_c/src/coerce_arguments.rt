// `gw_coerce_arguments` for C: the call of the crate gateway.
ghost use Rattle.paper_values.specs.ValueCalls.{CoercedArguments};

// C: uint32_t gw_coerce_arguments(const uint8_t *table, size_t table_len, const uint8_t *document, size_t document_len,
//                                 const uint8_t *operation, size_t operation_len, const uint8_t *variables, size_t variables_len,
//                                 uint32_t row, uint8_t *value, size_t value_len, uint32_t *report, size_t report_len);
//   table      read, of any length and content
//   document   read, of any length and content
//   operation  read, of any length and content: the operation's name; empty for the only operation
//   variables  read, of any length and content: the variables text
//   row        any number: the row of the document that is the field's
//   value      lent, 8,192 bytes are written; refusals 1 and 2 leave them
//   report     lent, 8 numbers are written; with fewer nothing is touched and the answer is 1
// Answers 0 and the number of the value's bytes, or a refusal's number and what it shows.
#[unsafe(no_mangle)]
pub extern "C" fn gw_coerce_arguments(
    table: &[u8],
    document: &[u8],
    operation: &[u8],
    variables: &[u8],
    row: u32,
    value: &mut [u8],
    report: &mut [u32],
) -> u32
    ensures { CoercedArguments table.now document.now operation.now variables.now row value.old report.old value.new report.new result }
{
    gateway::coerce_arguments::gw_coerce_arguments(
        table, document, operation, variables, row, value, report,
    )
}
