#![tactic(auto)]

// Numbers as bytes, columns and tables of fields in them, and what is read back: definitions in specs/, laws in proofs/, and no code.
