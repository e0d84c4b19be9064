//! Tests of the solver's parts: the lift, the oracle over polygons, the tables of a covering list. They stand in a
//! crate of their own, since a check with tests proves all of a crate once more, and that of `sc_solve` is long.
#![tactic(auto)]

#[cfg(test)]
mod prices;
#[cfg(test)]
mod tables;
