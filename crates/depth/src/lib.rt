// Theorems only: arrays, each inside the last, written and read, however many they are.

#![tactic(auto)]
