// Request 6: the basic machine and the tree machine end alike. Theorems alone, in specs/.
#![tactic(auto)]
