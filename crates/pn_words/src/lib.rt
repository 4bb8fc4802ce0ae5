//! Words of languages whose words depend on data: read exactly, or the longest front that begins one.
#![tactic(auto)]

mod literals;
mod marks;
mod numbers;
mod signs;

pub use literals::{literal, shared};
pub use marks::{closed_text, is_mark, mark, one_of};
pub use numbers::number;
pub use signs::signed;
