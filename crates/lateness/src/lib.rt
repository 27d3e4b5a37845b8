// How far from its share a lane can be, and how late it can come: bounds at every moment, over bytes and the door. There is no code here.
#![tactic(auto)]
