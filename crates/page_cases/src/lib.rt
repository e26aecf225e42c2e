// No code: worked pages, with functions in the place of the cipher that are fast to compute, in specs/ and proofs/.

#![tactic(auto)]
