// What is promised of the calls and of the programs: statements (specs/) and their proofs (proofs/Laws). There is no code here.
#![tactic(auto)]
