//! Certificates, read and printed: a surface with a price list, the tables that vouch for the list, and the journal of
//! a solver.
#![tactic(auto)]

mod bounds;
mod certificate;
mod front;
mod head;
mod items;
mod laws;
mod parts;
mod pivots;
mod price_list;
mod printing;
mod reader;
mod tables;

pub use bounds::{bound_from, word_price};
pub use certificate::Certificate;
pub use laws::{
    certificate_text_is_faultless, certificate_text_is_of_one_certificate,
    faultless_is_certificate_text, pivot_lines_are_a_kind, printed_certificates_are_read,
};
pub use price_list::PriceList;
pub use printing::{print_journal, print_list};
pub use tables::{Table, Tables};

#[cfg(test)]
mod tests;
