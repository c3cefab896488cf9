// Demand 3, proved: proofs/Theorem.antt has the theorem that semantics/specs/Demand.antt states.
#![tactic(auto)]
