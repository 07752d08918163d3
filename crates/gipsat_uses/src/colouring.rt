//! A graph whose vertices are coloured, so that the ends of each edge differ.
ghost use Rattle.std.specs.Prelude.{◌≡◌, [], ℕ, length, slice_get, Some, IfNone, IfOk, IfSome, OnOk};
ghost use Rattle.gipsat_cnf.specs.Prelude.{Adds, Assignment, Lit, assignment_in};
ghost use Rattle.gipsat_uses.specs.Colouring.{EndsDiffer, HasColour, IsColoured, IsColouring, has_colour};

use gipsat_cnf::{ClauseSink, Literal, SatSolver};
use gipsat_encodings::pairs::{add_at_least_one, add_at_most_one};
use std::alloc::{AllocError, Global};

/// Values by which each vertex has a colour, and the ends of each edge have none in common. None where there are none.
///
/// The vertices and the colours are numbers from 0 on. Variable `v * colours + c` says that vertex v has colour c.
///
/// Shows constraints of `gipsat_encodings`: what is proved here is about vertices and colours, and not about clauses.
///
/// # Errors
/// `AllocError` where memory is refused, or where a variable would be 2^31 or more.
pub fn colouring<S: SatSolver + Drop>(
    alloc: Global,
    vertices: usize,
    edges: &[(usize, usize)],
    colours: usize,
) -> Result<Option<Vec<bool>>, AllocError>
    ensures colouring { IfOk result (λ found. IfSome found (λ model.
        IsColouring vertices edges.now colours (assignment_in model.items))) }
    ensures none { IfOk result (λ found. IfNone found
        ((a : Assignment) → ¬ (IsColouring vertices edges.now colours a))) }
{
    colouring_by(alloc, &mut S::new(alloc), vertices, edges, colours)
}

// The same, by a solver without clauses.
fn colouring_by<S: SatSolver>(
    alloc: Global,
    solver: &mut S,
    vertices: usize,
    edges: &[(usize, usize)],
    colours: usize,
) -> Result<Option<Vec<bool>>, AllocError>
    requires empty { S.formula solver.old ≡ [] }
    ensures colouring { IfOk result (λ found. IfSome found (λ model.
        IsColouring vertices edges.now colours (assignment_in model.items))) }
    ensures none { IfOk result (λ found. IfNone found
        ((a : Assignment) → ¬ (IsColouring vertices edges.now colours a))) }
{
    add_graph(alloc, solver, vertices, edges, colours)?;
    solver.find_model()
}

// The values are a colouring.
fn add_graph<S: ClauseSink>(
    alloc: Global,
    sink: &mut S,
    vertices: usize,
    edges: &[(usize, usize)],
    colours: usize,
) -> Result<(), AllocError>
    ensures { OnOk result
        (Adds (IsColouring vertices edges.now colours) (S.formula sink.old) (S.formula sink.new)) }
{
    for vertex in 0..vertices {
        add_vertex(alloc, sink, vertex, colours)?;
    }
    for edge in edges {
        add_edge(sink, *edge, colours)?;
    }
    Ok(())
}

// The vertex has a colour.
fn add_vertex<S: ClauseSink>(
    alloc: Global,
    sink: &mut S,
    vertex: usize,
    colours: usize,
) -> Result<(), AllocError>
    ensures { OnOk result
        (Adds (λ a. IsColoured colours a vertex) (S.formula sink.old) (S.formula sink.new)) }
{
    let literals = literals_of(alloc, vertex, colours)?;
    add_at_least_one(sink, &literals)
}

// The literals that a vertex has the colours, one behind another.
fn literals_of(alloc: Global, vertex: usize, colours: usize) -> Result<Vec<Literal>, AllocError>
    ensures len { IfOk result (λ literals. length literals.items ≡ colours) }
    ensures each { IfOk result (λ literals. (c : ℕ) (l : Lit) → slice_get literals.items c ≡ Some l
        → l ≡ has_colour colours vertex c) }
{
    let mut literals = Vec::new(alloc);
    for colour in 0..colours {
        literals.push(literal(vertex, colours, colour)?)?;
    }
    Ok(literals)
}

// The ends of the edge have no colour in common.
fn add_edge<S: ClauseSink>(
    sink: &mut S,
    edge: (usize, usize),
    colours: usize,
) -> Result<(), AllocError>
    ensures { OnOk result (Adds (EndsDiffer colours edge) (S.formula sink.old) (S.formula sink.new)) }
{
    for colour in 0..colours {
        add_difference(sink, edge, colours, colour)?;
    }
    Ok(())
}

// Not both ends of the edge have the colour.
fn add_difference<S: ClauseSink>(
    sink: &mut S,
    edge: (usize, usize),
    colours: usize,
    colour: usize,
) -> Result<(), AllocError>
    ensures { OnOk result
        (Adds (λ a. HasColour colours a edge.0 colour → ¬ (HasColour colours a edge.1 colour))
        (S.formula sink.old) (S.formula sink.new)) }
{
    let (first, second) = edge;
    let first = literal(first, colours, colour)?;
    let second = literal(second, colours, colour)?;
    add_at_most_one(sink, &[first, second])
}

// The literal that a vertex has a colour.
fn literal(vertex: usize, colours: usize, colour: usize) -> Result<Literal, AllocError>
    ensures { IfOk result (λ l. l ≡ has_colour colours vertex colour) }
{
    let first = vertex.checked_mul(colours).ok_or(AllocError)?;
    let variable = first.checked_add(colour).ok_or(AllocError)?;
    if variable >= 1 << 31 {
        return Err(AllocError);
    }
    Ok(Literal::new(variable as u32, true))
}
