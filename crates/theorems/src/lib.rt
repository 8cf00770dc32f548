// This crate has no code: its proofs/ are the theorems about the definitions of crate calculus.
#![tactic(auto)]
