// Why many ticks can be done at once: what a leap over some of them is, whom it charges, and when a wait ends. There is no code here.
#![tactic(auto)]
