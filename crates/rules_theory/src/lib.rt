// What all rules need of theory: answers without limits, maps, signs, shapes.
#![tactic(auto)]
