// No code: any list of calls on a key holder, and full turns, in specs/ and proofs/.

#![tactic(auto)]
