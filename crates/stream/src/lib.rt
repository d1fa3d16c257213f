// What stands in a stream of line bits: definitions in specs/, laws in proofs/.
#![tactic(auto)]
