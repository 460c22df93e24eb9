#![tactic(auto)]

// What the two engines say of each other is stated and proved in specs/.
