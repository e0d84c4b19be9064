//! Tests of tables, cheap polygons and walks that are split. They stand in a crate of their own, since a check with
//! tests proves all of a crate once more, and that of `sc_tables` is long.
#![tactic(auto)]

#[cfg(test)]
mod tables;
