#![tactic(auto)]

// What coercion asks of a text's rows, true of every text that was read; there is no code.
