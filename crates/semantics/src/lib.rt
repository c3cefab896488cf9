// The meaning of a sheet: definitions in specs/, 01's marked rows in proofs/.
#![tactic(auto)]
