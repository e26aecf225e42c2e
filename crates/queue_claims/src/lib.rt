// No code: each byte of a queue is the single check's number, and no grant opens in a queue after its contractor's withdrawal, in specs/ and proofs/.

#![tactic(auto)]
