// No code: a good state, one broken state for each rule, and the proof that the definitions refuse them with BAD_STATE.

#![tactic(auto)]
