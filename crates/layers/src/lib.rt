// No code: states, the four layers of a round and the laws of them, in specs/ and proofs/.

#![tactic(auto)]
