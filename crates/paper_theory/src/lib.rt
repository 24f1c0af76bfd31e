#![tactic(auto)]

// No code: `proofs` has the laws of the definitions of `paper`.
