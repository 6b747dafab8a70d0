// The words of the books and calls files, as definitions with their laws: specs/ alone, no code.

#![tactic(auto)]
