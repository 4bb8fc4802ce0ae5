//! Steps by the words that tell their modes (ISO/IEC 15909-1, transition rule): to which marking the
//! modes of some words lead, all at once, from the initial marking.
#![tactic(auto)]

mod collected;
pub mod laws;
mod stepping;
mod texts;
mod told;

pub use stepping::{StepFault, step};
pub use told::{StepRefusal, step_told};
