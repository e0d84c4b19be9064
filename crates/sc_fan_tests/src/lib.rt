//! Tests of the text of fans. They stand in a crate of their own, since a check with tests proves all of a crate
//! once more, and that of `sc_fan` is long.
#![tactic(auto)]

#[cfg(test)]
mod texts;
