//! A lock that is taken in turns and counts its history.
#![tactic(auto)]

mod entering;
mod history;
mod making;
mod meeting;
mod pass;
mod steps;
mod taking;
mod turn;
mod turns;
mod view;
mod waiting;

pub use history::History;
pub use pass::Pass;
pub use turn::Turn;
pub use turns::Turns;
pub use view::{Logged, Sight, View};
