// The program `shift` as functions on bytes and values: what comes of each line, and of a whole input.
#![tactic(auto)]

mod answers;
mod commissions;
mod console;
mod coordinates;
mod faults;
mod feeding;
mod inputs;
mod numbers;
mod replies;
mod stages;
mod steps;
mod units;
mod writing;

pub use answers::answer_line;
pub use commissions::Commission;
pub use console::Console;
pub use coordinates::Coordinates;
pub use faults::ShiftFault;
pub use feeding::{input_has_one_output, respond};
pub use replies::{Answer, Answered, Reply};
pub use stages::Stage;
pub use writing::put_reply;
