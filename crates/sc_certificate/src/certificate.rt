//! Certificates, and their text read.

ghost use Rattle.std.specs.Prelude.{◌≡◌, ◌⊎◌, ℕ, IsErrAnd, IfOk, IfErr, OnOk};
ghost use Rattle.sc_line.specs.declared.fault.Kind.{Kind};
ghost use Rattle.sc_line.specs.declared.fault.TextFault.TheVariants as text_faults;
ghost use Rattle.sc_line.specs.Faults.{IsFaultless, IsFaultOf, IsFirstFault};
ghost use Rattle.sc_certificate.specs.Certificates.{Certificate as AnyCertificate, certificate_text, certificate_plan, IsCertificateInRange};

use crate::price_list::PriceList;
use crate::reader::read_parts;
use crate::tables::Tables;
use sc_chain::{Chain, Pivot};
use sc_fraction::Frac;
use sc_line::TextFault;
use sc_theory::Side;
use std::alloc::Global;

/// A surface with its value, a price list with tables that are to vouch for it, and the journal of a solver. The sides
/// need not be a labelled fatgraph, nor need the list cover the chain.
#[derive(Debug, Drop)]
pub struct Certificate {
    /// The chain.
    pub chain: Chain,
    /// The value that is stated of the surface.
    pub value: Frac,
    /// How many copies of the chain the boundary is to run along, from 1 to 2^20.
    pub n: u32,
    /// The sides in order, at most 2^20.
    pub sides: Vec<Side>,
    /// The price list.
    pub list: PriceList,
    /// The distance tables, one for each position.
    pub tables: Tables,
    /// The pivots by which a solver came to the list. They show nothing.
    pub journal: Vec<Pivot>,
}

impl Certificate {
    ghost use Rattle.sc_certificate.specs.CertificateRead.{certificate_of};

    /// The certificate whose text the bytes are. A fault is the first line, counted from 1, that isn't as it is due,
    /// with the first kind that applies to it.
    pub fn read(alloc: Global, bytes: &[u8]) -> Result<Certificate, TextFault>
        // What is read is the certificate of which the bytes are the text.
        ensures text { IfOk result (λ s. bytes.now ≡ certificate_text (certificate_of s)) }
        ensures in_range { IfOk result (λ s. IsCertificateInRange (certificate_of s)) }
        ensures faultless { OnOk result (IsFaultless certificate_plan bytes.now) }

        // The fault that is answered is the first one, and the first fault is answered, unless memory runs out.
        ensures malformed { IfErr result (IsFaultOf certificate_plan bytes.now) }
        ensures only { (line : ℕ) (kind : Kind) → IsFirstFault certificate_plan bytes.now line kind
            → IsErrAnd result (λ e. (e ≡ text_faults.Malformed line kind) ⊎ (e ≡ text_faults.Memory)) }

        // The text of a certificate in its ranges is read as that certificate, unless memory runs out.
        ensures read { (v : AnyCertificate) → IsCertificateInRange v → bytes.now ≡ certificate_text v → IfOk result (λ s. certificate_of s ≡ v) }
        ensures memory { (v : AnyCertificate) → IsCertificateInRange v → bytes.now ≡ certificate_text v → IfErr result (λ e. e ≡ text_faults.Memory) }
    {
        read_parts(alloc, bytes)
    }
}
