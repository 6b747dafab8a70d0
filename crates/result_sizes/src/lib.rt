// Which results can be too large (answers 40, 41, 42), for each call: specs/ alone, no code.

#![tactic(auto)]
