#![tactic(auto)]

// Every plan that is made of an accepted document is well-formed, and what walks of it collect; there is no code.
