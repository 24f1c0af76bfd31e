// The place of a definition that breaks a rule. A function that looks for it answers Err with the first, and Ok where the rule is kept. No function.
#![tactic(auto)]

// The place in the definition; 65,535 is none.
#[derive(Clone, Copy)]
pub struct Place {
    pub member: u32,
    pub part: u32,
    pub argument: u32,
}
