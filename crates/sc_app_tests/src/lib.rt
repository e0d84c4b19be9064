//! Tests of the program from bytes to bytes. They call `run` and its kin as `main` does, so they stand in a crate of
//! their own: a check with tests proves all of a crate once more, and that of `sc_app` is long.
#![tactic(auto)]

#[cfg(test)]
mod ball;
#[cfg(test)]
mod commands;
#[cfg(test)]
mod near_limits;
#[cfg(test)]
mod scl;
