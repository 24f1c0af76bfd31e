#![tactic(auto)]

// No code: `proofs` has worked examples of the definitions of `paper`.
