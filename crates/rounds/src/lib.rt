// Rounds: what holds of every run with such calls. The calls themselves are in `calls`.
#![tactic(auto)]
