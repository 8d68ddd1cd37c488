// For C, Rust and Python: one record read, a value taken apart.
#![tactic(auto)]

mod record;
mod values;
