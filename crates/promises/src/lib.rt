// The user's demands on the calls; there is no code here.
#![tactic(auto)]
