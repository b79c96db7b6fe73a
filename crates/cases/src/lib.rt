// No code: the cases that document 01 marks P, and the proof that the definitions give them.

#![tactic(auto)]
