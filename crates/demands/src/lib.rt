// Demands 2 and 3 over the answers of the functions. This crate has no functions: the statements are in proofs/Demands.antt.
#![tactic(auto)]
