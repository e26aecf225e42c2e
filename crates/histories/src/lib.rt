// No code: histories of a roll, in specs/ and proofs/.

#![tactic(auto)]
