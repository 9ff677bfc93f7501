// The parts of a probe, and of the line that answers it (docs/PROBE.md). A content that ends early is read as if zeros followed.
#![tactic(auto)]

pub mod printing; // printing.rt: the parts of a line
pub mod reading; // reading.rt: the parts of a probe
