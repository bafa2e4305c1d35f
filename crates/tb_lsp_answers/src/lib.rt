//! What is answered to requests on texts: what they ask for, and the answer to each.
//!
//! `request_of`: what a request asks for by its method and params, as one value. `answer`: what is answered to it is what
//! the definition of the request says of the lines of this text, or it is refused only where its params have not the
//! form (`Answers`).
#![tactic(auto)]

mod answers;
mod requests;

pub use answers::answer;
pub use requests::{Request, request_of};
