// The bench cases A to J of docs/RULES.md 11.
#![tactic(auto)]
