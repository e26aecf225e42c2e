// No code: any list of C calls on a lent key holder, in specs/ and proofs/.

#![tactic(auto)]
