//! Tests of drawings. They stand in a crate of their own, since a check with tests proves all of a crate once more,
//! and that of `sc_svg` is long.
#![tactic(auto)]

#[cfg(test)]
mod fans;
#[cfg(test)]
mod surfaces;
