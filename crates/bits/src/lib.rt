// Lists of bits and the numbers that they write: definitions in specs/, laws in proofs/.
#![tactic(auto)]
