// What the `dat` rows of a listing say, and the replay of it in lent buffers: definitions and laws.
#![tactic(auto)]
