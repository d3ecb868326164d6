#![tactic(auto)]

// The slot image on paper: the image of a table, the table that an image rebuilds to, and the theorems over them.
