// No code: the cases that 01 checks by hand, P1 on, as one table about the definitions (specs/Table.antt), proved by computing them.
#![tactic(auto)]
