//! What is asked and answered: requests, replies and refusals, as values. How lines denote requests and what lines
//! replies are is the affair of `request_text` and `reply_text`.
#![tactic(auto)]

mod field_text;
mod lists;
mod read_fault;
mod refusal;
mod reply;
mod request;
mod target;
mod thing;

pub use field_text::FieldText;
pub use lists::{Bytes, Rows, Uses, Weights, Wides};
pub use read_fault::ReadFault;
pub use record_text::Memory;
pub use refusal::Refusal;
pub use reply::Reply;
pub use request::Request;
pub use target::Target;
pub use thing::Thing;
