#![tactic(auto)]

// The starred spells of the rules, as one table of what is played and what it shows, and the proof that the definitions show just that.
