// Worked cases, each worked out by hand, in a crate of their own.
#![tactic(auto)]

#[cfg(test)]
mod lines;
#[cfg(test)]
mod piles;
#[cfg(test)]
mod quads;
#[cfg(test)]
mod shapes;
