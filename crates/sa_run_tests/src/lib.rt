//! Tests of sessions on threads: the same scripts run on threads and by their schedules, and the
//! journals of both are compared.
#![tactic(auto)]

#[cfg(test)]
mod answers;
#[cfg(test)]
mod journals;
#[cfg(test)]
mod program;
#[cfg(test)]
mod scripts;
#[cfg(test)]
mod tests;
