//! Requests as the bytes of a connection bring them, and the heads of responses.
#![tactic(auto)]

mod buffer;
mod feed;
mod fields;
mod front;
mod head;
mod laws;
mod line;
mod refusal;
mod response;
mod routes;
mod search;

pub use feed::{Feed, Step};
pub use laws::{lacking_is_one, passed_steps, steps_stay, stream_is_one};
pub use refusal::HttpRefusal;
pub use response::{Head, RefusalBody, print_head, refusal_body, refusal_code};
