//! Tests of indexes: their entries, where cuts lie between these, and how many different values
//! there are.
#![tactic(auto)]

#[cfg(test)]
mod built;
#[cfg(test)]
mod choice;
#[cfg(test)]
mod cuts;
#[cfg(test)]
mod definition;
#[cfg(test)]
mod entries;
#[cfg(test)]
mod every_cut;
#[cfg(test)]
mod filled;
#[cfg(test)]
mod line;
#[cfg(test)]
mod place;
#[cfg(test)]
mod shelves;
#[cfg(test)]
mod value;
