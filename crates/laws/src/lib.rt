// Laws of the rules, for every layer above to cite. There is no code here.
#![tactic(auto)]
