// Theorems only: the plain reader and the stepwise one agree (specs).

#![tactic(auto)]
