//! Tests of advice: they call `advise` as the solver does. They stand in a crate of their own, since a check with
//! tests proves all of a crate once more, and that of `sc_advice` is long.
#![tactic(auto)]

#[cfg(test)]
mod polygons;
