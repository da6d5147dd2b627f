// Records begun by a rebuild, and cards of any number of ticks: theorems about the card's calls, and no code.
#![tactic(auto)]
