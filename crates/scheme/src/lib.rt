// Card and post together: theorems about the two, and no code.
#![tactic(auto)]
