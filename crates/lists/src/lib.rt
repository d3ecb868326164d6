#![tactic(auto)]

// Laws of tests, lists, stores, counting and parts of a buffer, for the proofs of the other crates. It has no code.
