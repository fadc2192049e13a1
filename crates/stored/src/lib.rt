// What is stored in files: a file read whole, and the lines of a text; the arguments, which name the files; and the report of what
// was read.
#![tactic(auto)]

pub mod arguments;
pub mod files;
pub mod lines;
pub mod report;

pub use streams::text;
