// No code: that a demoted contractor overwrites nothing and reads as before, through the C calls and in queues, in specs/ and proofs/.

#![tactic(auto)]
