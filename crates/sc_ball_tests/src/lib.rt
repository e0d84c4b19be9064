//! Tests of the search for a ball. They stand in a crate of their own, since a check with tests proves all of a
//! crate once more, and that of `sc_ball` is long.
#![tactic(auto)]

#[cfg(test)]
mod balls;
