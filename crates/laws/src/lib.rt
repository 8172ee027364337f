// Laws of numbers, lists and tests that several crates use and the kit does not offer. The crate has no code: it is for its proofs.
#![tactic(auto)]
