// No code: when a grant opens, and that none opens after its contractor's withdrawal, in specs/ and proofs/.

#![tactic(auto)]
