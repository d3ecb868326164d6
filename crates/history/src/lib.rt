#![tactic(auto)]

// What a list of calls and their answers says of the keys, which live, which are detached and with which values, and the theorems that the table says the
// same. It has no code.
