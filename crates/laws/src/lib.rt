// Laws about the definitions of semantics that several crates cite, in proofs/; `Every`, of which some of them speak, in specs/.
#![tactic(auto)]
