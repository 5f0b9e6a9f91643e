//! Tests of SELECTs over one table, run whole: a script is read, its sessions run, and the lines that
//! the program prints are compared.
//!
//! A row of a text has cells between bars. Where a statement is refused, `^` marks the place; it isn't
//! a part of the statement.
#![tactic(auto)]

#[cfg(test)]
mod conditions;
#[cfg(test)]
mod documents;
#[cfg(test)]
mod faults;
#[cfg(test)]
mod finding;
#[cfg(test)]
mod giving;
#[cfg(test)]
mod lines;
#[cfg(test)]
mod program;
#[cfg(test)]
mod refusing;
#[cfg(test)]
mod showing;
#[cfg(test)]
mod statements;
#[cfg(test)]
mod table;
#[cfg(test)]
mod texts;
#[cfg(test)]
mod unbuilt;
