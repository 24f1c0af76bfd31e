// The numbers that document 01 fixes for the query rules, as the code writes them, and the answer to a document. No function.
// `specs/QueryNumbers.antt` has the same numbers under the same names, for contracts.
#![tactic(auto)]

// the column "No."
pub const REFUSE_QUERY: u32 = 10;

pub const REFUSE_NO_OPERATION: u32 = 12;

// the query rules
pub const RULE_OPERATION_REPEATED: u32 = 1;

pub const RULE_OPERATION_UNNAMED: u32 = 2;

pub const RULE_FRAGMENT_REPEATED: u32 = 3;

pub const RULE_CONDITION: u32 = 4;

pub const RULE_FIELD: u32 = 5;

pub const RULE_LEAF: u32 = 6;

pub const RULE_SPREAD: u32 = 7;

pub const RULE_CIRCLE: u32 = 8;

pub const RULE_DIRECTIVE: u32 = 9;

pub const RULE_UNDEFINED: u32 = 10;

pub const RULE_VARIABLE_TYPE: u32 = 11;

pub const RULE_NAME_TWICE: u32 = 12;

pub const RULE_NO_ROOT: u32 = 13;

pub const RULE_ARGUMENT: u32 = 14;

// What is said of a document that was read, against an accepted table.
#[derive(Clone, Copy)]
pub enum QueryAnswer {
    Fits,
    Breaks { row: u32, rule: u32 },
}
