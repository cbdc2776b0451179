// Definitions and laws on whole numbers that several crates cite; there is no code here.
#![tactic(auto)]
