// What the linear rules mean: soundness, limits, and the Alethe side of rules 1 to 6.
#![tactic(auto)]
