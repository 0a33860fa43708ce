// Demand 3: the two machines agree. Theorems alone, in specs/.
#![tactic(auto)]
