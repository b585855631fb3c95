// The starred examples of document 01, as a theorem in specs/.
#![tactic(auto)]
