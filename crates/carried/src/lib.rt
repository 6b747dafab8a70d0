// Demand 3 of the public calls, from what each of them promises: specs/ alone, no code.

#![tactic(auto)]
