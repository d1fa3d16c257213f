// Records made and read back, read and made again: laws alone, in proofs/; the definitions are those of each layout's specs/.
#![tactic(auto)]
