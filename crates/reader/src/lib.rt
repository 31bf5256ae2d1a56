// The reader: streams become recordings again. A `reader` puts blocks together into groups, and takes these `back`
// through the passes; `reading` is what stays between calls, and what a block brings.
#![tactic(auto)]

pub mod back;
pub mod reader;
pub mod reading;
