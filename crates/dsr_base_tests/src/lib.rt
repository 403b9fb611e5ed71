//! What the lowest crates do: plain data, cells of an image and dense rows, apart from those
//! crates, so that they are proved without their tests. One function does the work for a row of a
//! table.
//!
//! What is tested is owned and dropped by one function; the others ask by reference, and tell
//! whether all is right. Each assertion is a way out, at which all that is alive has to be dropped.
#![tactic(auto)]

#[cfg(test)]
mod cell_rows;
#[cfg(test)]
mod cells;
#[cfg(test)]
mod copies;
#[cfg(test)]
mod functional;
#[cfg(test)]
mod layouts;
#[cfg(test)]
mod marks;
#[cfg(test)]
mod numbers;
#[cfg(test)]
mod orders;
#[cfg(test)]
mod overlays;
#[cfg(test)]
mod pairs;
#[cfg(test)]
mod relations;
#[cfg(test)]
mod tests;
