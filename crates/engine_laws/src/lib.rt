// This crate has no code: its specs/ hold theorems on what is true after every call of the engine.
#![tactic(auto)]
