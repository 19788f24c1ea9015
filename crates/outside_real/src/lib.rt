//! The outside as the system has it: files below a folder, and standard output.
//!
//! Each form meets its trait of `outside` and tells no content. What contracts don't say, the forms are written for: a
//! link is never followed below the root that a form is given, and a file that is there is never changed, only replaced
//! whole.
#![tactic(auto)]

mod dir_reader;
mod dir_sink;
mod faults;
mod std_lines;
mod system;

pub use dir_reader::DirReader;
pub use dir_sink::DirSink;
pub use std_lines::StdLines;
