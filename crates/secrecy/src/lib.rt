// Two runs that differ only in what is secret look alike. Statements and their proofs, and no code.

#![tactic(auto)]
