// The rules as the Alethe specification gives them.
#![tactic(auto)]
