// The call that judges a whole transcript, by the verifier, and the checks that come before it.
// One piece of code judges, whether words lie side by side or come one by one.
#![tactic(auto)]

pub mod call;
pub mod checks;
pub mod judge;
mod transcript;
