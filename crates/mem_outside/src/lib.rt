//! Inputs, outputs and a sink in memory, for tests. Contracts see what they hold, and they fail at the calls that a
//! test lists.
#![tactic(auto)]

pub mod mem_inputs;
pub mod mem_outputs;
pub mod mem_sink;
mod shelf;

pub use mem_inputs::{InCall, MemInputs, NamedBytes};
pub use mem_outputs::{MemOutputs, OutCall};
pub use mem_sink::MemSink;
