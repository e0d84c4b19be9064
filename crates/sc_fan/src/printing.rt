//! Prints fans.

ghost use Rattle.std.specs.Prelude.{◌≡◌, ◌<◌, ◌++◌, map, length, All, OnOk, OnErr};
ghost use Rattle.sc_theory.specs.Prices.{pairs};
ghost use Rattle.sc_words.specs.declared.limits.TheConstants.{GENERATORS};
ghost use Rattle.sc_line.specs.Lines.{text_of};
ghost use Rattle.sc_line.specs.Printing.{AppendsPart};
ghost use Rattle.sc_text.specs.Words as words;
ghost use Rattle.sc_fan.specs.Corners.{corner_said, corner_line};
ghost use Rattle.sc_fan.specs.Fans.{chain_lines, corners_lines, edges_lines, fan_text, IsFanInRange};
ghost use Rattle.sc_fan.specs.inside.Printing.{edge_text, edges_text, counted_edges_text, AreEdgesOf};

use crate::corner::Corner;
use crate::corners::print_corner_line;
use crate::fan::{Edge, Fan};
use crate::quadrants::{chain_behind, chain_of_quadrant};
use sc_certificate::{PriceList, print_list};
use sc_chain::{Chain, Word};
use sc_cone::Quadrant;
use sc_text::{print_count_line, print_line, print_word_line};
use std::alloc::AllocError;
use std::marker::Model;

/// What the text of a fan is printed in.
#[derive(Clone, Copy, Debug)]
enum Part {
    Heading,
    First,
    Second,
    Corners,
    Edges,
    End,
}

/// The parts in their order.
const PARTS: [Part; 6] = [
    Part::Heading,
    Part::First,
    Part::Second,
    Part::Corners,
    Part::Edges,
    Part::End,
];

fn print_word_lines(entries: &[(u32, Word)], out: &mut Vec<u8>) -> Result<(), AllocError>
    requires { All (λ w. All (λ x. x.number < GENERATORS) w.1) entries.now }
    ensures ok { OnOk result (out.new.items ≡ out.old.items ++ text_of (map words.word_line entries.now)) }
    ensures err { OnErr result (AppendsPart out.old.items out.new.items (text_of (map words.word_line entries.now))) }
{
    for entry in entries {
        print_word_line(entry.0, &entry.1, out)?;
    }
    Ok(())
}

// A chain under a name: how many words there are, and the words.
fn print_chain(name: &[u8], entries: &[(u32, Word)], out: &mut Vec<u8>) -> Result<(), AllocError>
    requires { All (λ w. All (λ x. x.number < GENERATORS) w.1) entries.now }
    ensures ok { OnOk result (out.new.items ≡ out.old.items ++ text_of (chain_lines name.now entries.now)) }
    ensures err { OnErr result (AppendsPart out.old.items out.new.items (text_of (chain_lines name.now entries.now))) }
{
    print_count_line(name, entries.len() as u64, out)?;
    print_word_lines(entries, out)
}

fn print_corner_lines(corners: &[Corner], out: &mut Vec<u8>) -> Result<(), AllocError>
    ensures ok { OnOk result (out.new.items ≡ out.old.items ++ text_of (map (λ c. corner_line (corner_said c)) corners.now)) }
    ensures err { OnErr result (AppendsPart out.old.items out.new.items (text_of (map (λ c. corner_line (corner_said c)) corners.now))) }
{
    for corner in corners {
        print_corner_line(corner, out)?;
    }
    Ok(())
}

// How many corners there are, and the corners.
fn print_corners(corners: &[Corner], out: &mut Vec<u8>) -> Result<(), AllocError>
    ensures ok { OnOk result (out.new.items ≡ out.old.items ++ text_of (corners_lines (map corner_said corners.now))) }
    ensures err { OnErr result (AppendsPart out.old.items out.new.items (text_of (corners_lines (map corner_said corners.now)))) }
{
    print_count_line(b"corners", corners.len() as u64, out)?;
    print_corner_lines(corners, out)
}

// An edge: its number and its list.
fn print_edge(
    number: u64,
    chain: &Chain,
    list: &PriceList,
    out: &mut Vec<u8>,
) -> Result<(), AllocError>
    requires { length list.now.pair ≡ length (pairs chain.now) }
    ensures ok { OnOk result (out.new.items ≡ out.old.items ++ edge_text (pairs chain.now) number list.now) }
    ensures err { OnErr result (AppendsPart out.old.items out.new.items (edge_text (pairs chain.now) number list.now)) }
{
    print_count_line(b"edge", number, out)?;
    print_list(chain, list, out)
}

// Each edge with the pairs of its quadrant's chain.
fn print_edge_lines(
    corners: &[Corner],
    edges: &[Edge],
    upper: &Chain,
    lower: &Chain,
    out: &mut Vec<u8>,
) -> Result<(), AllocError>
    requires { AreEdgesOf (pairs upper.now) (pairs lower.now) corners.now edges.now }
    ensures ok { OnOk result (out.new.items ≡ out.old.items ++ edges_text (pairs upper.now) (pairs lower.now) corners.now edges.now) }
    ensures err { OnErr result (AppendsPart out.old.items out.new.items (edges_text (pairs upper.now) (pairs lower.now) corners.now edges.now)) }
{
    for (number, edge) in edges.iter().enumerate() {
        let chain = chain_behind(&corners[number], upper, lower);
        print_edge(number as u64, chain, &edge.list, out)?;
    }
    Ok(())
}

// How many edges there are, and the edges.
fn print_counted_edges(
    corners: &[Corner],
    edges: &[Edge],
    upper: &Chain,
    lower: &Chain,
    out: &mut Vec<u8>,
) -> Result<(), AllocError>
    requires { AreEdgesOf (pairs upper.now) (pairs lower.now) corners.now edges.now }
    ensures ok { OnOk result (out.new.items ≡ out.old.items ++ counted_edges_text (pairs upper.now) (pairs lower.now) corners.now edges.now) }
    ensures err { OnErr result (AppendsPart out.old.items out.new.items (counted_edges_text (pairs upper.now) (pairs lower.now) corners.now edges.now)) }
{
    print_count_line(b"edges", edges.len() as u64, out)?;
    print_edge_lines(corners, edges, upper, lower, out)
}

impl Fan {
    ghost use Rattle.sc_fan.specs.FanRead.{fan_said};
    ghost use Rattle.sc_fan.specs.Printing.{part_text};

    // The edges, by the chains of the quadrants.
    fn print_edges(&self, out: &mut Vec<u8>) -> Result<(), AllocError>
        requires { IsFanInRange (fan_said self.now) }
        ensures ok { OnOk result (out.new.items ≡ out.old.items ++ text_of (edges_lines (fan_said self.now).first (fan_said self.now).second (fan_said self.now).corners (fan_said self.now).lists)) }
        ensures err { OnErr result (AppendsPart out.old.items out.new.items (text_of (edges_lines (fan_said self.now).first (fan_said self.now).second (fan_said self.now).corners (fan_said self.now).lists))) }
    {
        let alloc = *out.allocator();
        let upper = chain_of_quadrant(alloc, Quadrant::Upper, &self.first, &self.second)?;
        let lower = chain_of_quadrant(alloc, Quadrant::Lower, &self.first, &self.second)?;
        print_counted_edges(
            self.corners.as_slice(),
            self.edges.as_slice(),
            &upper,
            &lower,
            out,
        )
    }

    fn print_part(&self, part: Part, out: &mut Vec<u8>) -> Result<(), AllocError>
        requires { IsFanInRange (fan_said self.now) }
        ensures ok { OnOk result (out.new.items ≡ out.old.items ++ part_text (fan_said self.now) part) }
        ensures err { OnErr result (AppendsPart out.old.items out.new.items (part_text (fan_said self.now) part)) }
    {
        match part {
            Part::Heading => print_line(b"scallop fan 1", &[], out),
            Part::First => print_chain(b"first", self.first.entries(), out),
            Part::Second => print_chain(b"second", self.second.entries(), out),
            Part::Corners => print_corners(self.corners.as_slice(), out),
            Part::Edges => self.print_edges(out),
            Part::End => print_line(b"end", &[], out),
        }
    }

    /// Appends the text of the fan. Each edge is to have the directions and the values of the corners that it goes from
    /// and to, which its lines don't repeat. Where memory runs out, a front of the text was appended.
    pub fn print(&self, out: &mut Vec<u8>) -> Result<(), AllocError>
        requires { IsFanInRange (fan_said self.now) }
        ensures ok { OnOk result (out.new.items ≡ out.old.items ++ fan_text (fan_said self.now)) }
        ensures err { OnErr result (AppendsPart out.old.items out.new.items (fan_text (fan_said self.now))) }
    {
        for part in PARTS {
            self.print_part(part, out)?;
        }
        Ok(())
    }
}
