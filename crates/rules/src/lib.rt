// The balance and queue rules of Electra as definitions: specs/ alone, no code.

#![tactic(auto)]
