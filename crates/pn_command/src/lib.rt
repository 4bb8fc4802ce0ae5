//! The top call of the program: from the words and the bytes that come in to the bytes that go out.
#![tactic(auto)]

mod due;
mod input;
pub mod laws;
mod lines;
mod listing;
mod mode_list;
mod outputs;
mod status;
mod stepping;
mod top;
mod verdict;
mod words;

pub use status::Status;
pub use top::run;
pub use words::{Asked, asks};
