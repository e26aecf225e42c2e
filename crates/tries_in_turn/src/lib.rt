// No code: tries one by one, each going on from the answer so far, in specs/ and proofs/.

#![tactic(auto)]
