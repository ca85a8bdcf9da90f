// One base row more: its definition and its theorems; there is no code here.
#![tactic(auto)]
