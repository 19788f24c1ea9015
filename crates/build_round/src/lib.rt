//! A round of the make phase: workers claim the files of a frontier, and build and publish what they claimed.
//!
//! [`round`] gives each worker a reader, a seat of the claim board and a cache of manifests. A worker draws positions of the
//! frontier; it claims the file there, and where nobody owned it, it reads the file, publishes its record and keeps those
//! of the files named by it that look free. What stays true: a file is claimed by one seat and built by that seat alone, so
//! a frontier may hold a file several times, and files that are owned already.
#![tactic(auto)]

mod answering;
mod handing;
mod keeping;
mod part;
mod rounds;
mod spreading;
mod taking;
mod working;

pub use rounds::round;
