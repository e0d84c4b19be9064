//! Tests of the surface text and of lines. They stand in a crate of their own, since a check with tests proves all
//! of a crate once more, and that of `sc_text` is long.
#![tactic(auto)]

#[cfg(test)]
mod lines;
#[cfg(test)]
mod surfaces;
