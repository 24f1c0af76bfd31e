#![tactic(auto)]

// How the rows of a text that was read lie: in order of start, each within its parent; there is no code.
