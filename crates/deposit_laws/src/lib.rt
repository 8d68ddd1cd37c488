// The deposit profile, as theorems: what our writer writes keeps it, and a deposited block's bytes follow from its identifier and its data.
#![tactic(auto)]
