// No code: the period of the linear step, and every step of the turn, for every key size, in specs/ and proofs/.

#![tactic(auto)]
