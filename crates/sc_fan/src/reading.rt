//! Reads fans.

ghost use Rattle.std.specs.Prelude.{◌≡◌, ◌≤◌, ◌<◌, ◌+◌, ◌^◌, ℕ, suc, [], map, length, get_or, IfErr, IfOk, IsErrAnd, OnOk, ◌⊎◌};
ghost use Rattle.sc_cone.specs.declared.Quadrant.{Quadrant as AnyQuadrant};
ghost use Rattle.sc_cone.specs.Cones.{quadrant_chain};
ghost use Rattle.sc_cone.specs.Fans.{no_corner};
ghost use Rattle.sc_line.specs.declared.fault.Kind.{Kind};
ghost use Rattle.sc_line.specs.declared.fault.TextFault.TheVariants as text_faults;
ghost use Rattle.sc_line.specs.Faults.{IsFaultless, IsFaultOf, IsFirstFault};
ghost use Rattle.sc_line.specs.Forms.{many_due};
ghost use Rattle.sc_text.specs.Surfaces.{IsChainInRange};
ghost use Rattle.sc_fan.specs.Corners.{corner_said, a_corner};
ghost use Rattle.sc_fan.specs.inside.EdgesRead.{numbered_due, edges_by};
ghost use Rattle.sc_fan.specs.FanRead.{fan_said, edge_said, plane_fan, AreJoinedTo, IsJoined};
ghost use Rattle.sc_fan.specs.FanReader.{IsFanRead};
ghost use Rattle.sc_fan.specs.Fans.{FanSaid, corners_due, edges_due, fan_due, fan_plan, fan_text, IsFanInRange};
ghost use Rattle.sc_fan.specs.inside.Printing.{edge_pairs};
ghost use Rattle.sc_fan.specs.Reading.{taken, Gives};

use crate::chains::read_chain;
use crate::corner::Corner;
use crate::fan::{Edge, Fan};
use crate::limits::{MAX_CORNERS, MIN_CORNERS};
use crate::lines::Lines;
use crate::lists::read_list;
use crate::quadrants::{pairs_behind, quadrant_pairs};
use sc_chain::limits::{MAX_POSITIONS, MAX_WORDS};
use sc_chain::{Chain, Pairs};
use sc_cone::Quadrant;
use sc_line::TextFault;
use std::alloc::Global;

// So many corners.
fn read_corner_lines(alloc: Global, lines: &mut Lines, count: u64) -> Result<Vec<Corner>, TextFault>
    ensures { Gives (λ corners. (map corner_said corners.items, lines.new)) result (taken (many_due (λ before. a_corner) count []) lines.old) }
{
    let mut corners = Vec::new(alloc);
    for _index in 0..count {
        let corner = lines.corner()?;
        corners.push(corner)?;
    }
    Ok(corners)
}

// How many corners there are, and the corners.
fn read_corners(alloc: Global, lines: &mut Lines) -> Result<Vec<Corner>, TextFault>
    ensures { Gives (λ corners. (map corner_said corners.items, lines.new)) result (taken corners_due lines.old) }
{
    let count = lines.count(b"corners", MIN_CORNERS, MAX_CORNERS)?;
    let corners = read_corner_lines(alloc, lines, count)?;
    Ok(corners)
}

// The edge from a corner to the next.
fn read_edge(
    alloc: Global,
    lines: &mut Lines,
    corners: &[Corner],
    number: usize,
    words: usize,
    upper: &Pairs,
    lower: &Pairs,
) -> Result<Edge, TextFault>
    requires { number + 1 < length corners.now }
    ensures told { Gives (λ edge. (edge.list, lines.new)) result (taken (numbered_due words (edge_pairs upper.now lower.now corners.now number) number) lines.old) }
    ensures from { IfOk result (λ edge. (edge_said edge).from ≡ get_or (map corner_said corners.now) number no_corner) }
    ensures to { IfOk result (λ edge. (edge_said edge).to ≡ get_or (map corner_said corners.now) (suc number) no_corner) }
{
    let from = &corners[number];
    let to = &corners[number + 1];
    lines.edge(number as u64)?;
    let list = read_list(alloc, lines, words, pairs_behind(from, upper, lower))?;
    Ok(Edge {
        from: from.direction,
        from_value: from.value,
        to: to.direction,
        to_value: to.value,
        list,
    })
}

// How many edges there are, and the edges.
fn read_edges(
    alloc: Global,
    lines: &mut Lines,
    corners: &[Corner],
    words: usize,
    upper: &Pairs,
    lower: &Pairs,
) -> Result<Vec<Edge>, TextFault>
    requires { 1 ≤ length corners.now }
    ensures told { Gives (λ edges. (map (λ e. e.list) edges.items, lines.new)) result (taken (edges_by words upper.now lower.now corners.now) lines.old) }
    ensures joined { IfOk result (λ edges. AreJoinedTo (map corner_said corners.now) (map edge_said edges.items)) }
{
    let count = corners.len() - 1;
    lines.count(b"edges", count as u64, count as u64)?;
    let mut edges = Vec::new(alloc);
    for number in 0..count {
        let edge = read_edge(alloc, lines, corners, number, words, upper, lower)?;
        edges.push(edge)?;
    }
    Ok(edges)
}

// The edges between the corners of two chains.
fn read_edges_of(
    alloc: Global,
    lines: &mut Lines,
    first: &Chain,
    second: &Chain,
    corners: &[Corner],
) -> Result<Vec<Edge>, TextFault>
    requires chains { (q : AnyQuadrant) → IsChainInRange (quadrant_chain q first.now second.now) }
    requires some { 1 ≤ length corners.now }
    ensures told { Gives (λ edges. (map (λ e. e.list) edges.items, lines.new)) result (taken (edges_due first.now second.now (map corner_said corners.now)) lines.old) }
    ensures joined { IfOk result (λ edges. AreJoinedTo (map corner_said corners.now) (map edge_said edges.items)) }
{
    let upper = quadrant_pairs(alloc, Quadrant::Upper, first, second)?;
    let lower = quadrant_pairs(alloc, Quadrant::Lower, first, second)?;
    let words = first.words() + second.words();
    let edges = read_edges(alloc, lines, corners, words, &upper, &lower)?;
    Ok(edges)
}

// A fan, whose text may be followed by more.
fn read_fan(alloc: Global, lines: &mut Lines) -> Result<Fan, TextFault>
    ensures told { Gives (λ fan. (fan_said fan, lines.new)) result (taken fan_due lines.old) }
    ensures joined { IfOk result (λ fan. IsJoined (plane_fan fan)) }
{
    lines.literal(b"scallop fan 1")?;
    let first = read_chain(alloc, lines, b"first", MAX_WORDS, MAX_POSITIONS)?;
    let words = MAX_WORDS - first.words();
    let letters = MAX_POSITIONS - first.positions();
    let second = read_chain(alloc, lines, b"second", words, letters)?;
    let corners = read_corners(alloc, lines)?;
    let edges = read_edges_of(alloc, lines, &first, &second, corners.as_slice())?;
    lines.literal(b"end")?;
    Ok(Fan {
        first,
        second,
        corners,
        edges,
    })
}

// Reads a text whole.
fn read_text(alloc: Global, bytes: &[u8]) -> Result<Fan, TextFault>
    requires { length bytes.now < 2 ^ 31 }
    ensures read { IsFanRead bytes.now result }
    ensures joined { IfOk result (λ fan. IsJoined (plane_fan fan)) }
{
    let mut lines = Lines::of(bytes);
    let fan = read_fan(alloc, &mut lines)?;
    lines.end()?;
    Ok(fan)
}

impl Fan {
    /// The fan whose text the bytes are, of which there are fewer than 2^31; whether it is true nothing says. A fault
    /// is the first line, counted from 1, that isn't as it is due, with the first kind that applies to it.
    pub fn read(alloc: Global, bytes: &[u8]) -> Result<Fan, TextFault>
        requires { length bytes.now < 2 ^ 31 }

        // What is read is the fan of which the bytes are the text. Each of its edges goes from its corner to the next.
        ensures text { IfOk result (λ f. bytes.now ≡ fan_text (fan_said f)) }
        ensures in_range { IfOk result (λ f. IsFanInRange (fan_said f)) }
        ensures joined { IfOk result (λ f. IsJoined (plane_fan f)) }
        ensures faultless { OnOk result (IsFaultless fan_plan bytes.now) }

        // The fault that is answered is the first one.
        ensures malformed { IfErr result (IsFaultOf fan_plan bytes.now) }

        // The first fault is answered, unless memory runs out.
        ensures only { (line : ℕ) (kind : Kind) → IsFirstFault fan_plan bytes.now line kind
            → IsErrAnd result (λ e. (e ≡ text_faults.Malformed line kind) ⊎ (e ≡ text_faults.Memory)) }

        // The text of a fan in its ranges is read as that fan, unless memory runs out.
        ensures read { (v : FanSaid) → IsFanInRange v → bytes.now ≡ fan_text v → IfOk result (λ f. fan_said f ≡ v) }
        ensures memory { (v : FanSaid) → IsFanInRange v → bytes.now ≡ fan_text v → IfErr result (λ e. e ≡ text_faults.Memory) }
    {
        read_text(alloc, bytes)
    }
}
