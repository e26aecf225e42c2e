// No code: what was sealed opens, and every page that opens is the seal of what it gives, in specs/ and proofs/.

#![tactic(auto)]
