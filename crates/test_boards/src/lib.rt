//! Worked examples of the boards, and both of them shared by two threads, with values from outside the code.
#![tactic(auto)]

#[cfg(test)]
mod claims;
#[cfg(test)]
mod draw_threads;
#[cfg(test)]
mod threads;
