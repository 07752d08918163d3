//! Shortest distances over a graph that is given by the edges that begin at each node.
ghost use Rattle.std.specs.Prelude.{◌≡◌, ◌<◌, length, nat_lt, slice_index, IfOk, OnOk, IsTrue};
ghost use Rattle.std.specs.List.{list_all};
ghost use Rattle.giputils_uses.specs.Paths.{edges_from, ends_at_nodes, AreCosts, AreLeast, HasWait, ComesNearer, Relaxes};

use giputils::gvec::Gvec;
use giputils::heap::{BinaryHeap, ByRank};
use std::alloc::{AllocError, Allocator};
use std::cmp::Reverse;

/// The distance of each node from the source. An edge is where it ends, and its weight, and stands in the list of the
/// node where it begins.
///
/// A distance below `u32::MAX` is the least cost of a path. A node of distance `u32::MAX` has no path that costs less.
///
/// Every edge must end at a node, which [`ends_at_nodes`] tests.
///
/// Shows a search that takes the nearest waiting node first, and moves a waiting one by `push_or_update` when its
/// distance falls. That each answer is least is proved of the edges alone, whatever the order in which nodes are taken.
/// The order makes it fast: each node is taken once, so there are at most as many `push_or_update` as edges, and one
/// `pop` more than nodes. This bound is not proved.
///
/// # Errors
/// `AllocError` where memory is refused.
pub fn distances<A: Allocator + Copy>(
    alloc: A,
    graph: &[Gvec<(u16, u32), A>],
    source: u16,
) -> Result<Vec<u32, A>, AllocError>
    requires source { source < length graph.now }
    requires ends { IsTrue (ends_at_nodes graph.now) }
    ensures len { IfOk result (λ far. length far.items ≡ length graph.now) }
    ensures reached { IfOk result (λ far. AreCosts graph.now source far.items) }
    ensures least { IfOk result (λ far. AreLeast graph.now source far.items) }
{
    let mut far = vec![in alloc; u32::MAX; graph.len()]?;
    let mut waiting = BinaryHeap::new(alloc);
    come_nearer(&mut far, &mut waiting, source, 0)?;
    while let Some(node) = waiting.pop(&Reverse(ByRank(&far))) {
        for edge in from_node(graph, node) {
            relax(&mut far, &mut waiting, node, *edge)?;
        }
    }
    Ok(far)
}

/// Whether every edge ends at a node.
pub fn ends_at_nodes<A: Allocator>(graph: &[Gvec<(u16, u32), A>]) -> bool
    ensures { result ≡ ends_at_nodes graph.now }
{
    all_end_below(graph, graph.len())
}

// Whether every edge of each list ends below a number.
fn all_end_below<A: Allocator>(lists: &[Gvec<(u16, u32), A>], count: usize) -> bool
    ensures { result ≡ list_all (list_all (λ e. nat_lt e.0 count)) lists.now }
{
    lists.iter().all(|edges| ends_below(edges, count))
}

// Whether each of these edges ends below a number.
fn ends_below(edges: &[(u16, u32)], count: usize) -> bool
    ensures { result ≡ list_all (λ e. nat_lt e.0 count) edges.now }
{
    edges.iter().all(|edge| usize::from(edge.0) < count)
}

// The edges that begin at a node. None begins at a number that is no node.
fn from_node<A: Allocator>(graph: &[Gvec<(u16, u32), A>], node: u16) -> &[(u16, u32)]
    ensures { result.now ≡ edges_from graph.now node }
{
    match graph.get(usize::from(node)) {
        Some(edges) => edges,
        None => &[],
    }
}

// Goes along an edge that begins at a node. Its end waits, where it has come nearer.
fn relax<A: Allocator + Copy>(
    far: &mut Vec<u32, A>,
    waiting: &mut BinaryHeap<u16, A>,
    node: u16,
    edge: (u16, u32),
) -> Result<(), AllocError>
    requires begin { node < length far.old.items }
    requires end { edge.0 < length far.old.items }
    ensures { OnOk result (Relaxes node edge far.old.items waiting.old far.new.items waiting.new) }
{
    let (end, weight) = edge;
    let through = far[usize::from(node)].saturating_add(weight);
    if through >= far[usize::from(end)] {
        return Ok(());
    }
    come_nearer(far, waiting, end, through)
}

// Gives a node a lesser distance, and has it wait.
fn come_nearer<A: Allocator + Copy>(
    far: &mut Vec<u32, A>,
    waiting: &mut BinaryHeap<u16, A>,
    node: u16,
    distance: u32,
) -> Result<(), AllocError>
    requires inside { node < length far.old.items }
    requires nearer { distance < slice_index far.old.items node }
    ensures { OnOk result (ComesNearer node distance far.old.items waiting.old far.new.items waiting.new) }
{
    far[usize::from(node)] = distance;
    wait(waiting, node, far)
}

// Has a node wait, at its place by the distances.
fn wait<A: Allocator + Copy>(
    waiting: &mut BinaryHeap<u16, A>,
    node: u16,
    far: &Vec<u32, A>,
) -> Result<(), AllocError>
    ensures { OnOk result (HasWait node waiting.old waiting.new) }
{
    waiting.push_or_update(node, &Reverse(ByRank(far)))
}
