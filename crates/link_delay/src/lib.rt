// How true a simulated delay is (document 02, M-106): laws only.
#![tactic(auto)]
