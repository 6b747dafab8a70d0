// Laws of the rules, for the theorems and for the code: specs/ alone, no code.

#![tactic(auto)]
