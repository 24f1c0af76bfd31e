// The calls that the host makes, and nothing else: each is one proved function that tests its buffers.
// A call stands in a file of its own.
#![tactic(auto)]

pub mod check;
pub mod check_table;
pub mod coerce_arguments;
pub mod coerce_variables;
pub mod parse;
pub mod plan;
pub mod walk;
