// The calls under the names that C links, and nothing else: each calls the function of the crate gateway, and promises the same.
// A call stands in a file of its own.
#![tactic(auto)]

pub mod check;
pub mod check_table;
pub mod coerce_arguments;
pub mod coerce_variables;
pub mod parse;
pub mod plan;
pub mod walk;
