// The demands, sentence by sentence, and the worked values: statements in specs/, proofs in proofs/.
#![tactic(auto)]
