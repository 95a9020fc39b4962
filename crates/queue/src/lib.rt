// The queue as document 01 describes it is in specs/, and the order rule's proof in proofs/: this crate has no code.

#![tactic(auto)]
