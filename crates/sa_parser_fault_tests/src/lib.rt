//! Tests of where `sa_parser` finds a fault, of how deep and how long a statement may be, and of
//! directives.
//!
//! A row of a table has a name, a text and what is expected of it, and a failure prints all three.
//! `^` marks a place in a text; it isn't a part of the text.
#![tactic(auto)]

#[cfg(test)]
mod checks;
#[cfg(test)]
mod depth;
#[cfg(test)]
mod directives;
#[cfg(test)]
mod faults;
#[cfg(test)]
mod long;
