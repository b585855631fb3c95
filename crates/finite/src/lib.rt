// What holds of each of finitely many, the first, how many, and sums: mathematics in specs/, no code.
#![tactic(auto)]
