// What is written, as theorems: there is no code here. It encodes the values that document 01 names,
// reads back as what was written, is refused only where document 01 says so, and is the shortest.
#![tactic(auto)]
