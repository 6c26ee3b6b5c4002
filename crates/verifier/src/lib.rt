// The verifier, step by step: an answer is read where it stands, a coin falls for it, and the two lead on.
// It goes the same way whether words lie side by side or come one by one.
#![tactic(auto)]

pub mod answer;
pub mod verifier;
