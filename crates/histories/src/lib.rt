// No code: theorems over the definitions of scope, tied to the code by what `step` promises.

#![tactic(auto)]
