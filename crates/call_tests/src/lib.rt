// Tests of the calls of a book: in tables, where of several causes the upper row is told, and in
// runs at a desk. There is nothing else in this crate.
#![tactic(auto)]

#[cfg(test)]
mod entering;
#[cfg(test)]
mod fixture;
#[cfg(test)]
mod publishing;
#[cfg(test)]
mod runs;
#[cfg(test)]
mod sessions;
#[cfg(test)]
mod sheets;
#[cfg(test)]
mod trading;
