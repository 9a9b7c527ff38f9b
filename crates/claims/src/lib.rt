// Theorems only, over the definitions and the contracts of the crates below: what is open, that reading ends, that every promise leaves one
// answer, and the table of cases of docs/FORMAT.md.

#![tactic(auto)]
