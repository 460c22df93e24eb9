#![tactic(auto)]

// When a table is sound, and who holds a line of it: definitions and laws.
