//! Bases of columns with costs at two levels, their inverses by rows, prices and lawful pivots: definitions in
//! `specs/`, a module per subject, and laws. Each public function is a law; there is no program code.
#![tactic(auto)]

pub mod divisors;
pub mod entries;
pub mod evidence;
pub mod examples;
pub mod inverses;
pub mod journals;
pub mod leaving;
pub mod pivots;
pub mod rises;
pub mod rules;
pub mod values;
