#![tactic(auto)]

// How many fragments a document that was read has, and how many variables each of its operations; there is no code.
