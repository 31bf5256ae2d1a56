// Schedules and faults: the layer that everything else stands on. `interface` is what a schedule answers,
// `fourfold` has SOLE and LOSE at a `width`, and `fault` with its `text` is how every call refuses.
#![tactic(auto)]

pub mod fault;
pub mod fourfold;
pub mod interface;
pub mod text;
pub mod width;
