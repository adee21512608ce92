// Document 01's jobs at the edges: a table in specs/Table.antt, and one theorem over it in proofs/Right.antt.
#![tactic(auto)]
