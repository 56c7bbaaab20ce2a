//! The top call of racelog: words, files and two sinks in, a status out.
//!
//! `NoMemory` is answered if memory ran out.
#![tactic(auto)]

mod big;
mod comparing;
mod compiling;
mod counts;
mod equality;
pub mod laws;
mod loading;
mod message;
mod order;
mod performing;
mod refusal;
mod request;
mod running;
mod sim;
mod status;
mod times;
mod verdict;
mod words;

pub use big_input::big_input;
pub use message::{ErrorLine, line};
pub use performing::perform;
pub use refusal::Refusal;
pub use rl_jobs::Fault;
pub use running::run;
pub use status::Status;
pub use verdict::Verdict;
