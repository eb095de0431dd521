// The worked cases of document 01, computed from the definitions. There is no code: the table and its proof are laws.
#![tactic(auto)]
