// The project's demands, as theorems over any outcomes that the promises of the public calls allow.
#![tactic(auto)]
