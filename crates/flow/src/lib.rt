// Definitions and theorems only: the conditions of the laws over fractions, their solutions and what is stored of them (SPEC 6 and 7).
#![tactic(auto)]
