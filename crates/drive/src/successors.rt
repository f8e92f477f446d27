// The lines that may run after a line.

// A jump's target comes first. No line has more than two successors, and none comes twice, so that a match sees all there is: a list would not
// say so.
#[derive(Clone, Copy, Debug, PartialEq, Eq)]
pub enum Successors {
    Nowhere,
    One(usize),
    Two(usize, usize),
}
