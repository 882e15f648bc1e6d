// Definitions and theorems only: the board (SPEC 13), computed on the definitions.
#![tactic(auto)]
