// Document 01's samples: see specs/Samples.antt.
#![tactic(auto)]
