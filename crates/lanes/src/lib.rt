// What the lane report says of a run, and why a lane's lag is 0 after whole rounds. There is no code here.
#![tactic(auto)]
