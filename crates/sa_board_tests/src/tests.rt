//! Sessions over the passes of a board.

mod apart;
mod start;
