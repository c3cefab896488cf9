// Where data lies: alignment, and pointer maps with their counts.
#![tactic(auto)]

pub mod align;
pub mod map;
