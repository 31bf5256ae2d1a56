// The writer: a recording becomes a stream. A `recording` takes its symbols by `steps`, and these mix them by the
// `passes`; `held` is what stays between calls, and `blocks` finds a block that is too large.
#![tactic(auto)]

pub mod blocks;
mod held;
mod passes;
pub mod recording;
mod steps;
