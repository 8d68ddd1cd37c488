// MessagePack by its specification, as theorems: there is no code here. specs/ has the data model, the
// relation "these bytes encode this value", and what the definitions of crate msgpack say of it.
#![tactic(auto)]
