// What play is made of: a chip's stored contents in a file, a trace run in pieces, the last line, and the line on a chip's room.

#![tactic(auto)]

pub mod contents;
pub mod pieces;
pub mod room;
pub mod summary;
