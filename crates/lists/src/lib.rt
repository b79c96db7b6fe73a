// No code: the queues and the ready order as the paper has them, lists of tasks, over the definitions of scope.

#![tactic(auto)]
