// The level fields of the two files with families: definitions and theorems; there is no code here yet.
#![tactic(auto)]
