// What is demanded of several calls together, or of every call alike: theorems, and no code.
#![tactic(auto)]
