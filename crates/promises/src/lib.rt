// The promises, docs/RULES.md 1.4 to 1.7: statements in specs/, their proofs in proofs/.
#![tactic(auto)]
