// Working circuits out: the values of a layer, in all copies, and the call that gives the outputs or refuses.
// What these are is defined in the specs of `circuits`.
#![tactic(auto)]

mod outputs;
mod values;

pub use outputs::{run, try_run};
pub use values::{layer_values, work_out};
