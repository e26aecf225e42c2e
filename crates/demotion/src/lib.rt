// No code: that a demoted contractor overwrites nothing and reads as before, in specs/ and proofs/.

#![tactic(auto)]
