// The numbers that document 01 fixes, as the code writes them, and the refusals. No function.
// `specs/Numbers.antt` has the same numbers under the same names, for contracts.
#![tactic(auto)]

// sizes
pub const MOST_TEXT: usize = 16384;

pub const MOST_LEVELS: u32 = 32;

pub const MOST_ROWS: u32 = 2048;

pub const MOST_FRAGMENTS: u32 = 64;

pub const MOST_VARIABLES: u32 = 64;

pub const MOST_WRAPPERS: u32 = 7;

// fixed sizes of the outputs, in numbers
pub const ROW_SIZE: usize = 7;

pub const ROWS_SIZE: usize = 14336;

pub const REPORT_SIZE: usize = 8;

// the column "No."
pub const ACCEPTED: u32 = 0;

pub const REFUSE_BUFFER: u32 = 1;

pub const REFUSE_OVER_LENGTH: u32 = 2;

pub const REFUSE_NO_TOKEN: u32 = 3;

pub const REFUSE_NO_GOING: u32 = 4;

pub const REFUSE_TOO_DEEP: u32 = 5;

pub const REFUSE_TOO_MANY_ROWS: u32 = 6;

pub const REFUSE_TOO_MANY: u32 = 8;

// the inputs
pub const INPUT_DOCUMENT: u32 = 0;

pub const INPUT_VARIABLES: u32 = 1;

// a row's parent where there is none
pub const NO_PARENT: u32 = 2048;

// the kinds of rows
pub const KIND_OPERATION: u32 = 1;

pub const KIND_FRAGMENT: u32 = 2;

pub const KIND_FIELD: u32 = 3;

pub const KIND_SPREAD: u32 = 4;

pub const KIND_INLINE: u32 = 5;

pub const KIND_ARGUMENT: u32 = 6;

pub const KIND_DIRECTIVE: u32 = 7;

pub const KIND_VARIABLE_DEFINITION: u32 = 8;

pub const KIND_TYPE_REFERENCE: u32 = 9;

pub const KIND_OBJECT_FIELD: u32 = 10;

pub const KIND_VARIABLE: u32 = 20;

pub const KIND_INTEGER: u32 = 21;

pub const KIND_FLOAT: u32 = 22;

pub const KIND_STRING: u32 = 23;

pub const KIND_BOOLEAN: u32 = 24;

pub const KIND_NULL: u32 = 25;

pub const KIND_ENUM: u32 = 26;

pub const KIND_LIST: u32 = 27;

pub const KIND_OBJECT: u32 = 28;

// extras: of an operation, of a boolean
pub const EXTRA_QUERY: u32 = 0;

pub const EXTRA_MUTATION: u32 = 1;

pub const EXTRA_SUBSCRIPTION: u32 = 2;

pub const EXTRA_FALSE: u32 = 0;

pub const EXTRA_TRUE: u32 = 1;

// a wrapper's two bits in a type reference's extra; the wrappers are packed from outside in, the outermost lowest
pub const WRAP_LIST: u32 = 1;

pub const WRAP_NON_NULL: u32 = 2;

pub const WRAP_BASE: u32 = 4;

// A refusal with what it shows, the column "Shown".
#[derive(Clone, Copy)]
pub enum Refusal {
    // 1: an output buffer is shorter than its fixed size
    Buffer,
    // 2: the input that is over its length
    OverLength(u32),
    // 3: offset of bytes that start no token, or of the string or comment with bad text
    NoToken(u32),
    // 4: offset of the token with which no document can go on, or the text's length
    NoGoing(u32),
    // 5: offset of the opening mark of level 33
    TooDeep(u32),
    // 6: offset of the construct that would be row 2,049
    TooManyRows(u32),
    // 8: offset of the first over another count
    TooMany(u32),
}
