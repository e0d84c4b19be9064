//! Price lists: the tables that vouch for a list, the tight ones, and certificates, which are judged: a certificate
//! whose conditions all hold shows that its fatgraph is least, whoever wrote it.
#![tactic(auto)]

mod flaws;
mod judging;
pub mod laws;
mod prices;
mod tightness;
mod verdict;
mod vouching;

pub use flaws::TableFlaw;
pub use judging::judge;
pub use sc_certificate::{Certificate, PriceList, Tables};
pub use tightness::tight;
pub use verdict::{Condition, Verdict};
pub use vouching::vouch;

#[cfg(test)]
mod tests;
