// Values, primary parts and records by the data model of MessagePack, as theorems: there is no code here. specs/ says
// what a header and a primary part tell as values, that every encoding of them is read so, and that two sites read alike.
#![tactic(auto)]
