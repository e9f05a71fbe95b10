// What the polynomial rules mean: soundness, limits, and the Alethe side of rules 7 and 8.
#![tactic(auto)]
