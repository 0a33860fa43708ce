// What every run keeps: environments are sound, v is a value, and cells not in use are zero. Theorems alone, in specs/.
#![tactic(auto)]
