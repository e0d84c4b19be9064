//! The half of a fan in a quadrant, by a walk along the entries of the quadrant's search: an edge goes on as far as its
//! list is tight.

ghost use Rattle.std.specs.Prelude.{◌≡◌, ◌↔◌, ℕ, suc, ◌≤◌, List, [], ◌∷◌, ◌++◌, Option, length, slice_get};
ghost use Rattle.std.specs.Prelude.{IsTrue, IfOk, OnOk};
ghost use Rattle.std.specs.Option.{option_map, option_to_list};
ghost use Rattle.sc_theory.specs.Chains.{Chain as AnyChain, IsChain};
ghost use Rattle.sc_fraction.specs.Frac.{numerator, denominator};
ghost use Rattle.sc_cone.specs.declared.Quadrant.{Quadrant as AnyQuadrant};
ghost use Rattle.sc_cone.specs.Directions.{IsIn, IsPrimitive, first_end, last_end};
ghost use Rattle.sc_cone.specs.Cones.{chain_of};
ghost use Rattle.sc_cone.specs.Values.{IsValueOf, IsTightAt};
ghost use Rattle.sc_cone.specs.Fans.{Edge as PlaneEdge};
ghost use Rattle.sc_cone.specs.Searches.{Reached as PlaneReached};
ghost use Rattle.sc_crossing.specs.Lengths.{IsLight};
ghost use Rattle.sc_fan.specs.Corners.{corner_said};
ghost use Rattle.sc_fan.specs.FanRead.{edge_said};
ghost use Rattle.sc_ball.specs.declared.solved.Solved.{Solved as AnySolved};
ghost use Rattle.sc_ball.specs.inside.Neighbours.{IsClosed};
ghost use Rattle.sc_ball.specs.Solved.{seen};
ghost use Rattle.sc_ball.specs.inside.Solved.{IsSolvedIn};
ghost use Rattle.sc_ball.specs.inside.Searched.{IsSearchedTo};
ghost use Rattle.sc_ball.specs.Searched.{entries_of};
ghost use Rattle.sc_ball.specs.inside.Arcs.{IsSpareOf, IsTightLast, IsChosen, list_in};
ghost use Rattle.sc_ball.specs.inside.Halves.{most_entries, ended_at, IsStepTo, ArcIsTo, IsArcAlong, IsHalfFan};
ghost use Rattle.sc_ball.specs.Halves.{corner_in};

use crate::solved::{Solved, check_chain};
use sc_certificate::PriceList;
use sc_chain::Chain;
use sc_cone::Quadrant;
use sc_crossing::is_tight_at;
use sc_fan::{Corner, Edge};
use std::alloc::{AllocError, Global};

/// The corners and edges of a quadrant.
#[derive(Drop)]
pub(crate) struct Half {
    /// In the order of turning left.
    pub(crate) corners: Vec<Corner>,
    /// One from each corner to the next.
    pub(crate) edges: Vec<Edge>,
}

/// Corners and edges up to an entry of a search.
#[derive(Drop)]
struct Arc {
    /// The corners before the last one.
    corners: Vec<Corner>,
    /// The edges before the last one.
    edges: Vec<Edge>,
    /// The corner of the entry.
    last: Corner,
    /// The edge to it. There is none where it is the only corner.
    edge: Option<Edge>,
    /// The list of the entry, unless that edge has it.
    spare: Option<PriceList>,
}

/// The list of an edge, and that of its end, unless it is the same.
#[derive(Drop)]
struct Choice {
    list: PriceList,
    spare: Option<PriceList>,
}

/// The corner of an entry.
fn corner_of(entry: &Solved) -> Corner
    ensures { result ≡ corner_in entry.now }
{
    Corner {
        direction: entry.reached.direction,
        value: entry.value,
    }
}

/// The arc of one corner.
fn begun(alloc: Global, entry: Solved) -> Arc
    ensures { (q : AnyQuadrant) (first second : AnyChain) →
        IsIn q entry.reached.direction → IsPrimitive entry.reached.direction → entry.reached.direction ≡ first_end q
        → IsSolvedIn q first second entry → ArcIsTo q first second result 1 (seen entry) }
{
    let last = corner_of(&entry);
    Arc {
        corners: Vec::new(alloc),
        edges: Vec::new(alloc),
        last,
        edge: None,
        spare: Some(entry.reached.list),
    }
}

/// Whether the list of an edge, if there is one, is tight at a corner as well.
fn goes_on(first: &Chain, second: &Chain, edge: &Option<Edge>, corner: &Corner) -> bool
    requires { IsLight first.now second.now corner.now.direction }
    ensures { (q : AnyQuadrant) →
        IsValueOf (chain_of q first.now second.now corner.now.direction)
        (numerator corner.now.value) (denominator corner.now.value)
        → (IsTrue result ↔ IsTightLast q first.now second.now (option_map edge_said edge.now) corner.now.direction) }
{
    match edge {
        Some(edge) => is_tight_at(first, second, &edge.list, corner.direction, &corner.value),
        None => false,
    }
}

/// The edge, if there is one, with another end.
fn with_end(edge: Option<Edge>, end: Corner) -> Option<Edge>
    ensures { option_map edge_said result ≡ option_map (ended_at (corner_said end)) (option_map edge_said edge) }
{
    match edge {
        Some(edge) => Some(Edge {
            from: edge.from,
            from_value: edge.from_value,
            to: end.direction,
            to_value: end.value,
            list: edge.list,
        }),
        None => None,
    }
}

/// The arc whose last edge goes on to the next entry.
fn extended(arc: Arc, entry: Solved) -> Arc
    ensures { (q : AnyQuadrant) (first second : AnyChain) (n : ℕ) (r : PlaneReached) →
        IsChain first → IsChain second → ArcIsTo q first second arc n r → IsStepTo q first second r entry
        → IsTightLast q first second (option_map edge_said arc.edge) entry.reached.direction
        → ArcIsTo q first second result (suc n) (seen entry) }
{
    let last = corner_of(&entry);
    Arc {
        corners: arc.corners,
        edges: arc.edges,
        last,
        edge: with_end(arc.edge, last),
        spare: Some(entry.reached.list),
    }
}

/// Which list the edge from an entry to the next one takes: that of the first, where it is there to spare and tight at
/// the second's corner, and else that of the second.
fn chosen(
    first: &Chain,
    second: &Chain,
    spare: Option<PriceList>,
    end: &Corner,
    own: PriceList,
) -> Choice
    requires { IsLight first.now second.now end.now.direction }
    ensures { (q : AnyQuadrant) (r : PlaneReached) (edge : Option PlaneEdge) →
        let u : PlaneReached = record { direction = end.now.direction; list = own } in
        IsValueOf (chain_of q first.now second.now end.now.direction) (numerator end.now.value)
        (denominator end.now.value)
        → IsTightAt q first.now second.now r.list r.direction → IsTightAt q first.now second.now u.list u.direction
        → IsSpareOf (list_in edge) r.list spare → ¬ IsTightLast q first.now second.now edge u.direction
        → IsClosed q first.now second.now r u
        → IsChosen q first.now second.now r u result.list result.spare }
{
    match spare {
        Some(list) => {
            if is_tight_at(first, second, &list, end.direction, &end.value) {
                Choice {
                    list,
                    spare: Some(own),
                }
            } else {
                Choice {
                    list: own,
                    spare: None,
                }
            }
        }
        None => Choice {
            list: own,
            spare: None,
        },
    }
}

/// The edge between two corners with this list.
fn edge_between(from: Corner, to: Corner, list: PriceList) -> Edge
    ensures { edge_said result ≡ record { from = corner_said from; to = corner_said to; list = list } }
{
    Edge {
        from: from.direction,
        from_value: from.value,
        to: to.direction,
        to_value: to.value,
        list,
    }
}

/// Puts an edge, if there is one, behind others.
fn append_edge(edges: &mut Vec<Edge>, edge: Option<Edge>) -> Result<(), AllocError>
    ensures { OnOk result (edges.new.items ≡ edges.old.items ++ option_to_list edge) }
{
    match edge {
        Some(edge) => {
            edges.push(edge)?;
            Ok(())
        }
        None => Ok(()),
    }
}

/// The corners and edges with the last ones behind the others.
fn settled(
    mut corners: Vec<Corner>,
    last: Corner,
    mut edges: Vec<Edge>,
    edge: Option<Edge>,
) -> Result<Half, AllocError>
    ensures corners { IfOk result (λ h. h.corners.items ≡ corners.items ++ last ∷ []) }
    ensures edges { IfOk result (λ h. h.edges.items ≡ edges.items ++ option_to_list edge) }
{
    corners.push(last)?;
    append_edge(&mut edges, edge)?;
    Ok(Half { corners, edges })
}

/// The arc with an edge more, to the next entry.
fn pushed(first: &Chain, second: &Chain, arc: Arc, entry: Solved) -> Result<Arc, AllocError>
    requires { IsLight first.now second.now entry.reached.direction }
    ensures { (q : AnyQuadrant) (n : ℕ) (r : PlaneReached) →
        ArcIsTo q first.now second.now arc n r → IsStepTo q first.now second.now r entry
        → ¬ IsTightLast q first.now second.now (option_map edge_said arc.edge) entry.reached.direction
        → IfOk result (λ a. ArcIsTo q first.now second.now a (suc n) (seen entry)) }
{
    let end = corner_of(&entry);
    let Choice { list, spare } = chosen(first, second, arc.spare, &end, entry.reached.list);
    let edge = edge_between(arc.last, end, list);
    let Half { corners, edges } = settled(arc.corners, arc.last, arc.edges, arc.edge)?;
    Ok(Arc {
        corners,
        edges,
        last: end,
        edge: Some(edge),
        spare,
    })
}

/// The arc to the next entry: the last edge goes on, or there is an edge more.
fn grown(first: &Chain, second: &Chain, arc: Arc, entry: Solved) -> Result<Arc, AllocError>
    requires { IsLight first.now second.now entry.reached.direction }
    ensures { (q : AnyQuadrant) (n : ℕ) (r : PlaneReached) →
        ArcIsTo q first.now second.now arc n r → IsStepTo q first.now second.now r entry
        → IfOk result (λ a. ArcIsTo q first.now second.now a (suc n) (seen entry)) }
{
    check_chain(first);
    check_chain(second);
    let end = corner_of(&entry);
    if goes_on(first, second, &arc.edge, &end) {
        Ok(extended(arc, entry))
    } else {
        pushed(first, second, arc, entry)
    }
}

/// The half that an arc is which has come to the other end of the quadrant.
fn finished(arc: Arc) -> Result<Half, AllocError>
    ensures { (q : AnyQuadrant) (first second : AnyChain) (n : ℕ) (r : PlaneReached) →
        ArcIsTo q first second arc n r → r.direction ≡ last_end q → n ≤ most_entries
        → IfOk result (IsHalfFan q first second) }
{
    settled(arc.corners, arc.last, arc.edges, arc.edge)
}

/// The arc that begins with an entry, or goes on to it.
fn arc_to(
    alloc: Global,
    first: &Chain,
    second: &Chain,
    arc: Option<Arc>,
    entry: Solved,
) -> Result<Arc, AllocError>
    requires { IsLight first.now second.now entry.reached.direction }
    ensures { (q : AnyQuadrant) (entries : List AnySolved) (n : ℕ) →
        IsSearchedTo q first.now second.now entries (length entries) → slice_get entries n ≡ Some entry
        → IsArcAlong q first.now second.now (entries_of entries) arc n
        → IfOk result (λ a. IsArcAlong q first.now second.now (entries_of entries) (Some a) (suc n)) }
{
    check_chain(first);
    check_chain(second);
    match arc {
        Some(arc) => grown(first, second, arc, entry),
        None => Ok(begun(alloc, entry)),
    }
}

/// The half of a fan by a whole search.
pub(crate) fn half_of(
    alloc: Global,
    first: &Chain,
    second: &Chain,
    entries: Vec<Solved>,
) -> Result<Half, AllocError>
    requires { (q : AnyQuadrant) × IsSearchedTo q first.now second.now entries.items (length entries.items) }
    ensures { (q : AnyQuadrant) → IsSearchedTo q first.now second.now entries.items (length entries.items)
        → IfOk result (IsHalfFan q first.now second.now) }
{
    check_chain(first);
    check_chain(second);
    let mut arc = None;
    for entry in entries {
        arc = Some(arc_to(alloc, first, second, arc, entry)?);
    }
    match arc {
        Some(arc) => finished(arc),
        // A search has entries.
        None => unreachable!(),
    }
}
