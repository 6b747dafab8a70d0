// Functions on tests and lists, and their laws: specs/ alone, no code.

#![tactic(auto)]
