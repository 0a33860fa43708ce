// Uniqueness: what a promise of a function for users leaves open is nothing. Theorems alone, in specs/.
#![tactic(auto)]
