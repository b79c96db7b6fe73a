#![tactic(auto)]

// No code: the grid's claims over histories, told by the answers alone; tied to the code by what `grid` promises.
