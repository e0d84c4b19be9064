//! Tests of multiples and of gluing. They stand in a crate of their own, since a check with tests proves all of a
//! crate once more, and that of `sc_assembly` is long.
#![tactic(auto)]

#[cfg(test)]
mod counting;
#[cfg(test)]
mod gluing;
