// What holds of every list of calls, proved of the definitions of `rules`: specs/ alone, no code.

#![tactic(auto)]
