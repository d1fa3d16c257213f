// The demands of the library for C and Rust, and demand 1 of the crates that lend it bytes: statements in specs/, proofs in proofs/.
#![tactic(auto)]
