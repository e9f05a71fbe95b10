// The table of cases, answered by hand, and what pins the demands.
#![tactic(auto)]
