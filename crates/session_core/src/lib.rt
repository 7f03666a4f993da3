//! The request machine at work: a session answers one line at a time, and keeps sources and plans between lines.
//! `Session::answer` is proved to be the step that `request_machine` defines.
#![tactic(auto)]

mod declare;
mod effects;
mod exact;
mod laws;
mod load;
mod measure;
mod outcome;
mod parts;
mod session;
mod update;

pub use laws::law_work;
pub use request_machine::{law_file, law_noise, law_replies};
pub use request_text::{MAX_LINE, Memory};
pub use session::Session;
