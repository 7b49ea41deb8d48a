// This crate has no code: its specs/ hold tables and states for examples, and work the starred bench cases of document 01 by the rules alone.
#![tactic(auto)]
