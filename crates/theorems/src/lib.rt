// What follows from the rules as a whole: the three demands as theorems (proofs/Demands). No functions.
#![tactic(auto)]
