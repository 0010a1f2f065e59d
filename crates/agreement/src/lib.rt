// Demand 3: specs/ states it, proofs/ proves it. There is no code here.
#![tactic(auto)]
