#![tactic(auto)]

// What a sheet beside the table says, and the rules of a boot and a call that keep one, are stated in specs/.
