// The starred cases of document 01: one table of claims about the rules (specs/Table.antt), tests that the checker
// computes (specs/Tests.antt), and one lemma that turns the tests into the claims at each row (proofs/Cases.antt).
#![tactic(auto)]
