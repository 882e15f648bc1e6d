// Definitions and theorems only: the three demands of the mission, over calls on bytes and lists of them (SPEC 9.11 to 9.13, 11).
#![tactic(auto)]
