// No code: M-100's claims over histories, told by the answers alone; tied to the code by what `step` promises.

#![tactic(auto)]
