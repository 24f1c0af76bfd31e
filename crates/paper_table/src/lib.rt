// The numbers that document 01 fixes for the type table, as the code writes them, and the answer to a table. No function.
// `specs/TableNumbers.antt` has the same numbers under the same names, for contracts.
#![tactic(auto)]

// sizes
pub const MOST_TABLE: usize = 32768;

pub const MOST_RECORDS: u32 = 256;

pub const MOST_MEMBERS: u32 = 64;

pub const MOST_IMPLEMENTED: u32 = 64;

pub const MOST_ARGUMENTS: u32 = 16;

// the column "No."
pub const REFUSE_FRAMING: u32 = 7;

pub const REFUSE_SCHEMA: u32 = 9;

// the input
pub const INPUT_TABLE: u32 = 2;

// member, part or argument where there is none
pub const NO_PLACE: u32 = 65535;

// the records' tags
pub const TAG_SCALAR: u8 = 1;

pub const TAG_OBJECT: u8 = 2;

pub const TAG_INTERFACE: u8 = 3;

pub const TAG_UNION: u8 = 4;

pub const TAG_ENUM: u8 = 5;

pub const TAG_INPUT_OBJECT: u8 = 6;

pub const TAG_DIRECTIVE: u8 = 7;

pub const TAG_ROOTS: u8 = 8;

// the same as 32-bit numbers, as a book of the records keeps them
pub const RECORD_SCALAR: u32 = 1;

pub const RECORD_OBJECT: u32 = 2;

pub const RECORD_INTERFACE: u32 = 3;

pub const RECORD_UNION: u32 = 4;

pub const RECORD_ENUM: u32 = 5;

pub const RECORD_INPUT_OBJECT: u32 = 6;

pub const RECORD_DIRECTIVE: u32 = 7;

pub const RECORD_ROOTS: u32 = 8;

// the tags of what stands inside
pub const TAG_NAME: u8 = 16;

pub const TAG_IMPLEMENTS: u8 = 17;

pub const TAG_FIELD: u8 = 18;

pub const TAG_ARGUMENT: u8 = 19;

pub const TAG_REFERENCE: u8 = 20;

pub const TAG_UNION_MEMBER: u8 = 21;

pub const TAG_ENUM_VALUE: u8 = 22;

pub const TAG_QUERY_ROOT: u8 = 23;

pub const TAG_MUTATION_ROOT: u8 = 24;

pub const TAG_SUBSCRIPTION_ROOT: u8 = 25;

// the schema rules
pub const RULE_RESERVED_NAME: u32 = 1;

pub const RULE_NAME_KNOWN: u32 = 2;

pub const RULE_NO_MEMBERS: u32 = 3;

pub const RULE_NAME_REPEATED: u32 = 4;

pub const RULE_RESERVED_MEMBER: u32 = 5;

pub const RULE_ENUM_VALUE: u32 = 6;

pub const RULE_NO_TYPE: u32 = 7;

pub const RULE_BASE: u32 = 8;

pub const RULE_NOT_OBJECT_OR_INTERFACE: u32 = 9;

pub const RULE_IMPLEMENTED_TWICE: u32 = 10;

pub const RULE_FIELD_MISSING: u32 = 11;

pub const RULE_FIELD_TYPE: u32 = 12;

pub const RULE_ARGUMENT_MISSING: u32 = 13;

pub const RULE_ARGUMENT_TYPE: u32 = 14;

pub const RULE_ARGUMENT_EXTRA: u32 = 15;

pub const RULE_ROOT: u32 = 16;

// What is said of a table.
#[derive(Clone, Copy)]
pub enum TableAnswer {
    // 0: within its sizes, and no rule is broken
    Accepted,
    // 7: the smallest wrong offset
    Framing(u32),
    // 8: the offset of the first over a count
    TooMany(u32),
    // 9: the least break
    Breaks {
        definition: u32,
        rule: u32,
        member: u32,
        part: u32,
        argument: u32,
    },
}
