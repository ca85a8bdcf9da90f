// What the groups and the lists of rows by nodes are; there is no code here.
#![tactic(auto)]
