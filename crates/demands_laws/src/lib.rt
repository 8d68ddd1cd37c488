// What the customer signs, as theorems over the definitions: there is no code here. A deletion, two sites'
// packs, which number is given, document 01's cases: each file of specs/ has one of them.
#![tactic(auto)]
