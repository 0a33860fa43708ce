// Linear files read back what was written (document 01, 'Two files'): laws only, in specs/.
#![tactic(auto)]
