// The laws are in specs/ and proofs/: this crate has no code.

#![tactic(auto)]
