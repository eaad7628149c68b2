// The worked cases that document 01 marks: one list, specs/Starred.antt, with one statement, proved in proofs/Hold.antt.
#![tactic(auto)]
