// What the bytes that the calls leave and the words that they return stand for: theorems. See specs/.
#![tactic(auto)]
