// No code: M-111, how long a FIFO waiter can wait, told by the answers alone, over the books' definitions; tied to the code by what `step` promises.

#![tactic(auto)]
