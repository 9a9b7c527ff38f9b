#![tactic(auto)]

// Definitions and laws only: the binary property list that events are written as.
