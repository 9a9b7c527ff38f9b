// Theorems only: what holds of every file that is written, as the reader's own definitions read it.

#![tactic(auto)]
