// Definitions and laws only: fractions, their order and their sums, floors and ceilings, concave functions (SPEC 2.4 to 2.8).
#![tactic(auto)]
