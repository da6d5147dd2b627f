// Tables of numbers that follow a rule: definitions and laws for other crates, no code.
#![tactic(auto)]
