// Sessions as text (docs/RULES.md, "Text format").
#![tactic(auto)]

mod lines;
mod numbers;
mod printing;
mod reading;
mod session;

pub use lines::first_line;
pub use printing::{push_answer, push_end, push_refusal};
pub use reading::read_line;
pub use session::{
    Outcome, RunFault, SessionError, execute_line, print_line, push_outcome, run_session,
};
