// Definitions and laws alone: what is promised of the public calls, from specs/Claims.antt on. There is no code here.
#![tactic(auto)]
