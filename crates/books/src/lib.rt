// No code: demand 3 told by the answers alone, over the definitions of scope; tied to the code by what `step` promises.

#![tactic(auto)]
