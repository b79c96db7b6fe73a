// No code: histories that show what M-111 claims and where it does not hold, computed from the definitions. Apart from `fifo`, whose edits need not compute them.

#![tactic(auto)]
