// Two crews on one set of cores: what a call for both is, and what holds of every two runs (document 02, Q-9).
#![tactic(auto)]
