// The log program's work (SPEC 12): a log's bytes in, its text out.
#![tactic(auto)]

mod lines; // lines.rt: the lines of the text
pub mod print; // print.rt: standard input and output
mod text; // text.rt: a text that is written into a lent buffer
pub mod walk; // walk.rt: a log's parts, the run on them, the whole text
