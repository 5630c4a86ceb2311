//! Integers in proofs: ring identities by computing, the order of products, and machine numbers with their wraps taken off. It has no function: `proofs/` is what other crates use.
#![tactic(auto)]
