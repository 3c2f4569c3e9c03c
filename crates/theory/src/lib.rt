#![tactic(auto)]

// Definitions and laws alone: see proofs/Demands.antt first, and specs/ for the words that it uses. There is no code here.
