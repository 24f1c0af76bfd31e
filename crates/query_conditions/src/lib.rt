#![tactic(auto)]

// What every accepted document keeps to, so that the numbers in its plans stay in their ranges; there is no code.
