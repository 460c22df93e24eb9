#![tactic(auto)]

// Definitions and theorems only: see specs/.
