//! Requests and replies of the whole language, as JSON.
#![tactic(auto)]

mod argument;
mod code;
mod fault;
mod field;
mod form;
mod law;
mod line;
mod page;
mod part;
mod path;
mod read;
mod refusal;
mod refused;
mod reply;
mod request;
mod routed;
mod value;

pub use code::code_of;
pub use law::lines_read_back;
pub use read::read_request;
pub use reply::print_reply;
pub use request::print_request;
