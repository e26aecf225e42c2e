// No code: what definitions and proofs of several crates share, in specs/ and proofs/.

#![tactic(auto)]
