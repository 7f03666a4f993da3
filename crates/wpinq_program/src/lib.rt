//! The top call: it reads request lines from a source, or takes those of the demo, answers each through a session
//! and writes the replies to a sink. Its contract says what every status means, whatever the pieces are in which
//! the input is read and the output is taken.
#![tactic(auto)]

mod beyond;
mod demo;
mod ending;
mod input;
mod input_run;
mod line_buffer;
mod output;
mod responder;
mod stop;
mod stream;
mod top;

pub use demo_input::demo_text;
pub use ending::Ending;
pub use program_words::Word;
pub use top::wpinq;
