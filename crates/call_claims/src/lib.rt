// No code: what plotter boxes and cutting rooms see of a store through the C calls, in specs/ and proofs/.

#![tactic(auto)]
