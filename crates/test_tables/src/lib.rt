//! Worked examples, with values from outside the code: what definitions give, and what calls answer where no definition
//! computes it.
#![tactic(auto)]

#[cfg(test)]
mod faults;
#[cfg(test)]
mod names;
#[cfg(test)]
mod orders;
#[cfg(test)]
mod plan;
pub mod rows;
#[cfg(test)]
mod scans;
#[cfg(test)]
mod table;
