// Steps that the words of the Alethe specification accept and refuse, and what each departure decides.
#![tactic(auto)]
