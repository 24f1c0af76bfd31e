// The numbers that document 01 fixes for plans and walks, as the code writes them. No function.
// `specs` has what document 01 says of them; `specs/PlanNumbers.antt`, `PlanCalls.antt` and `WalkNumbers.antt` have the same numbers under the same names, for contracts.
#![tactic(auto)]

// how many numbers a plan has; the most of its blocks and steps
pub const PLAN_SIZE: usize = 14338;

pub const MOST_BLOCKS: u32 = 2048;

pub const MOST_STEPS: u32 = 4096;

// a plan's places: its counts of blocks and of steps, the blocks' first steps, then the steps
pub const PLAN_BLOCKS: usize = 0;

pub const PLAN_STEPS: usize = 1;

pub const PLAN_FIRSTS: usize = 2;

pub const PLAN_STEP_0: usize = 2050;

// a step's numbers: its kind, its first, its second; where step 0 has the latter two
pub const STEP_SIZE: usize = 3;

pub const PLAN_STEP_0_FIRST: usize = PLAN_STEP_0 + 1;

pub const PLAN_STEP_0_SECOND: usize = PLAN_STEP_0 + 2;

// the kinds of a plan's steps
pub const STEP_IF_TRUE: u32 = 1;

pub const STEP_UNLESS_TRUE: u32 = 2;

pub const STEP_UNLESS_APPLIES: u32 = 3;

pub const STEP_IF_MET: u32 = 4;

pub const STEP_LIST: u32 = 5;

// the tests among them as 16-bit numbers, as the planner's table keeps them
pub const TEST_IF_TRUE: u16 = 1;

pub const TEST_UNLESS_TRUE: u16 = 2;

pub const TEST_UNLESS_APPLIES: u16 = 3;

pub const TEST_IF_MET: u16 = 4;

// how many pairs a walk may list, and how many blocks it may take
pub const MOST_PAIRS: usize = 512;

pub const MOST_WALKED: usize = 64;

// the fixed size of its output, in numbers; and how many variable bytes are lent
pub const PAIRS_SIZE: usize = 1024;

pub const VARIABLES_SIZE: usize = 64;

// the column "No."
pub const REFUSE_TOO_MANY_STEPS: u32 = 13;

pub const REFUSE_WALK: u32 = 14;

pub const REFUSE_TOO_MANY_PAIRS: u32 = 15;
