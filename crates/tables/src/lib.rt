// Laws of tables of records: specs/ alone, no code.

#![tactic(auto)]
