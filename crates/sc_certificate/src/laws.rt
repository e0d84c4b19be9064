//! Laws of certificate texts.

ghost use Rattle.std.specs.Prelude.{◌≡◌, ℕ, List, Result, MatchResult};
ghost use Rattle.sc_line.specs.declared.fault.TextFault.{TextFault};
ghost use Rattle.sc_line.specs.declared.fault.TextFault.TheVariants.{Memory};
ghost use Rattle.sc_certificate.specs.declared.certificate.Certificate.{Certificate as CertificateParts};
ghost use Rattle.sc_certificate.specs.CertificateRead.{certificate_of, IsCertificateRead};
ghost use Rattle.sc_theory.specs.Chains.{Chain};
ghost use Rattle.sc_line.specs.Faults.{IsFaultless};
ghost use Rattle.sc_line.specs.Formats.{IsLineKind};
ghost use Rattle.sc_certificate.specs.PivotLines.{pivot_fault, pivot_of_line, pivot_line, IsPivotInRange};
ghost use Rattle.sc_certificate.specs.Certificates.{Certificate, certificate_text, certificate_plan, IsCertificateInRange};

/// The lines of pivots without a fault are the lines of the pivots in range, and tell them.
pub fn pivot_lines_are_a_kind()
    ensures { (c : Chain) → IsLineKind (pivot_fault c) pivot_of_line pivot_line (IsPivotInRange c) }
{}

/// The text of a certificate in its ranges has no fault at any line, so it is read again.
pub fn certificate_text_is_faultless()
    ensures { (v : Certificate) → IsCertificateInRange v → IsFaultless certificate_plan (certificate_text v) }
{}

/// A text without a fault is the text of a certificate in its ranges.
pub fn faultless_is_certificate_text()
    ensures { (text : List ℕ) → IsFaultless certificate_plan text → (v : Certificate) × IsCertificateInRange v × (text ≡ certificate_text v) }
{}

/// No two certificates in their ranges have the same text.
pub fn certificate_text_is_of_one_certificate()
    ensures { (v w : Certificate) → IsCertificateInRange v → IsCertificateInRange w → certificate_text v ≡ certificate_text w → v ≡ w }
{}

/// What was printed of a certificate is read as the same certificate, unless memory runs out.
pub fn printed_certificates_are_read()
    ensures { (v : Certificate) (r : Result CertificateParts TextFault) → IsCertificateInRange v → IsCertificateRead (certificate_text v) r
        → MatchResult r (λ t. certificate_of t ≡ v) (λ e. e ≡ Memory) }
{}
