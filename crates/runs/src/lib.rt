// Runs of the analyses, held to tables that were worked out by hand: every operation, with never, a number and many. There is nothing here but
// tests; they have a crate of their own, since a crate with tests is proved twice.
#![tactic(auto)]

#[cfg(test)]
mod belt;
#[cfg(test)]
mod courses;
#[cfg(test)]
mod edits;
#[cfg(test)]
mod flow;
#[cfg(test)]
mod lines;
#[cfg(test)]
mod live;
