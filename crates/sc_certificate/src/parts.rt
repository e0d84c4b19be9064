//! Prints certificates, part by part.

ghost use Rattle.std.specs.Prelude.{◌≡◌, ◌≤◌, ◌++◌, length, OnOk, OnErr};
ghost use Rattle.sc_chain.specs.declared.limits.TheConstants.{MAX_POSITIONS};
ghost use Rattle.sc_line.specs.Lines.{text_of};
ghost use Rattle.sc_line.specs.Printing.{AppendsPart};
ghost use Rattle.sc_certificate.specs.Spelled.{tables_lines};
ghost use Rattle.sc_certificate.specs.Certificates.{certificate_text, IsCertificateInRange};

use crate::certificate::Certificate;
use crate::printing::{print_journal, print_list};
use crate::tables::Tables;
use sc_text::{
    print_count_line, print_from_line, print_line, print_sides, print_value_line, print_words,
};
use std::alloc::AllocError;

/// A part of the text of a certificate.
#[derive(Clone, Copy)]
enum Part {
    Heading,
    Words,
    Value,
    Copies,
    Sides,
    List,
    Tables,
    Journal,
    End,
}

/// The parts in their order.
const PARTS: [Part; 9] = [
    Part::Heading,
    Part::Words,
    Part::Value,
    Part::Copies,
    Part::Sides,
    Part::List,
    Part::Tables,
    Part::Journal,
    Part::End,
];

fn print_tables(tables: &Tables, out: &mut Vec<u8>) -> Result<(), AllocError>
    requires { length tables.now ≤ MAX_POSITIONS }
    ensures ok { OnOk result (out.new.items ≡ out.old.items ++ text_of (tables_lines tables.now)) }
    ensures err { OnErr result (AppendsPart out.old.items out.new.items (text_of (tables_lines tables.now))) }
{
    for start in 0..tables.len() {
        print_from_line(start as u32, tables.table(start), out)?;
    }
    Ok(())
}

impl Certificate {
    ghost use Rattle.sc_certificate.specs.CertificateRead.{certificate_of};
    ghost use Rattle.sc_certificate.specs.Parts.{part_text};

    fn print_part(&self, part: Part, out: &mut Vec<u8>) -> Result<(), AllocError>
        requires { IsCertificateInRange (certificate_of self.now) }
        ensures ok { OnOk result (out.new.items ≡ out.old.items ++ part_text (certificate_of self.now) part) }
        ensures err { OnErr result (AppendsPart out.old.items out.new.items (part_text (certificate_of self.now) part)) }
    {
        match part {
            Part::Heading => print_line(b"scallop certificate 1", &[], out),
            Part::Words => print_words(self.chain.entries(), out),
            Part::Value => print_value_line(&self.value, out),
            Part::Copies => print_count_line(b"copies", u64::from(self.n), out),
            Part::Sides => print_sides(self.sides.as_slice(), out),
            Part::List => print_list(&self.chain, &self.list, out),
            Part::Tables => print_tables(&self.tables, out),
            Part::Journal => print_journal(self.journal.as_slice(), out),
            Part::End => print_line(b"end", &[], out),
        }
    }

    /// Appends the text of the certificate. Where memory runs out, a part of it was appended.
    pub fn print(&self, out: &mut Vec<u8>) -> Result<(), AllocError>
        requires in_range { IsCertificateInRange (certificate_of self.now) }
        ensures ok { OnOk result (out.new.items ≡ out.old.items ++ certificate_text (certificate_of self.now)) }
        ensures err { OnErr result (AppendsPart out.old.items out.new.items (certificate_text (certificate_of self.now))) }
    {
        for part in PARTS {
            self.print_part(part, out)?;
        }
        Ok(())
    }
}
