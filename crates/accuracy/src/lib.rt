// Definitions and theorems only: the stored rod stays within k grains of the bar without rounding (SPEC 10, 11.8, 11.9).
#![tactic(auto)]
