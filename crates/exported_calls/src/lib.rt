// Demand 3 of the exported functions, from what each of them promises: specs/ alone, no code.

#![tactic(auto)]
