// A script's lines, served one by one on a job.
#![tactic(auto)]

mod reply;
mod service;

pub use reply::Reply;
pub use service::serve;
