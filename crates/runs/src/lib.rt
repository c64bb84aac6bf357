// Demand 3 of lines and images, as definitions and theorems.
#![tactic(auto)]
