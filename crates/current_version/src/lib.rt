// The current version of an object, as definitions and theorems: there is no code here. specs/ defines it, says it once
// more without computing anything, and has theorems over the bytes of packs: deletion, order, and that packs with
// records alike are looked up alike.
#![tactic(auto)]
