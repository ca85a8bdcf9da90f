// Definitions and laws of lists and of their orders; there is no code here.
#![tactic(auto)]
