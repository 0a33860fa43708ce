// Programs whose places correspond run alike, and what the rules keep of two states that are alike. Theorems alone, in specs/.
#![tactic(auto)]
