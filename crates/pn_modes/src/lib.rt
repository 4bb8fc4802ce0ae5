//! The search for modes of a transition (ISO/IEC 15909-1, high-level nets): it goes through the
//! choices of a value for each variable in order, and leaves out what begins with values of which no
//! mode can come.
#![tactic(auto)]

mod causes;
mod cursor;
mod fronts;
pub mod laws;
mod listing;
mod parts;
mod plan;
mod pruning;
mod searching;
mod sizes;
mod step;
mod walk;

pub use causes::{ModesFault, SearchFault};
pub use cursor::Cursor;
pub use fronts::{Fronts, plan_fronts};
pub use listing::{enabled, modes_of};
pub use parts::{ArcPart, Part};
pub use plan::{arc_parts, condition_parts};
pub use pruning::Pruning;
pub use searching::{ModeSearch, search};
pub use walk::{collect, next, start};
