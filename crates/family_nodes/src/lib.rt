// Families of codes: definitions and theorems; there is no code here.
#![tactic(auto)]
