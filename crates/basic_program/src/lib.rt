// The machine on basic byte code (document 02, request 6): what stands at its places, and a run. Definitions and laws alone, in specs/.
#![tactic(auto)]
