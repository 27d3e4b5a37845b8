// A step keeps a table sound. There is no code here.
#![tactic(auto)]
