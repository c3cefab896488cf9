// What the lines of a sheet declare, in their order: definitions and laws alone.
#![tactic(auto)]
