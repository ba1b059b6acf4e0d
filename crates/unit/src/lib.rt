// Steering units: open while they are commissioned, then sealed and given orders.
#![tactic(auto)]

mod days;
mod faults;
mod numbers;
mod orders;
mod progress;
mod reports;
mod sealing;
mod states;
mod steps;
mod tasks;
mod units;
mod writing;

pub use days::work_day;
pub use faults::UnitFault;
pub use orders::orders_have_one_outcome;
pub use reports::Report;
pub use states::{Kind, State};
pub use tasks::Task;
pub use units::{Open, Rejected, Sealed};
