#![tactic(auto)]

// A script's input on paper: its lines, the machine that reads it part by part, and the theorems over them.
