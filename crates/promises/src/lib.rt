// What a bench promises of every list of calls.

#![tactic(auto)]
