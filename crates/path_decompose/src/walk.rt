//! The walk along a boundary, once round.
ghost use Rattle.std.specs.Prelude.{◌≡◌, ◌≢◌, true, false, not, ℕ, ◌+◌, ◌∷◌, [], IfOk, OnOk, MatchBool, ◌^◌, ◌<◌};
ghost use Rattle.bit_image.specs.FirstBlack.{IsFirstBlack};
ghost use Rattle.bit_image.specs.Page.{image_of};
ghost use Rattle.boundary_edges.specs.Inside.{inside, black_count};
ghost use Rattle.boundary_edges.specs.Inner.BoundaryBits.{IsSpotAt};
ghost use Rattle.path_decompose.specs.Inner.Trail.{is_upright, edge_from, AreSumsBelow, AreNoted, IsStraightRun};
ghost use Rattle.path_decompose.specs.Walk.{first_edge, IsBoundaryWalk};
ghost use Rattle.turn_policies.specs.Boundary.{IsBoundary};
ghost use Rattle.turn_policies.specs.Heading.{end_x, end_y};
ghost use Rattle.turn_policies.specs.Turn.{next};

use crate::corner::turned_at;
use crate::trail::Trail;
use boundary_edges::{Edges, Layout, Spot};
use pt_core::{NoMemory, Policy, Sign};
use turn_policies::{Dir, Edge};

/// Walks once round the boundary that starts at the first black pixel, pixel (x, y), and notes it down.
//
// The area inside is that of the columns of the upright lines that it goes up, less those that it goes down: the
// shoelace formula of surveyors. For that it has to be known which side of each line is inside, which is proved step
// by step: a turn to the left keeps the pixel on the left, one to the right the pixel on the right, and straight on
// both pixels are as they were. The columns are summed up here, where the heading is known.
//
// It isn't inlined, so that its loops have the registers to themselves.
#[inline(never)]
pub(crate) fn walk_round(
    page: &Edges,
    x: u32,
    y: u32,
    policy: Policy,
    sign: Sign,
    trail: &mut Trail,
) -> Result<(), NoMemory>
    requires first { IsFirstBlack (image_of page.now) x y }
    ensures walk { OnOk result
        (IsBoundaryWalk (image_of page.now) policy sign x y trail.new.points.items) }
    ensures area { OnOk result
        (black_count (inside trail.new.points.items) page.now.width page.now.height + trail.new.down
        ≡ trail.new.up) }
{
    // The width is asked, so that the proof sees that a page is small, and its edges are few.
    let _ = page.width();
    let (rows, starts, words) = page.parts();
    let edges = Layout {
        page,
        rows,
        starts,
        words,
    };
    trail.clear();
    let mut here = Edge {
        x,
        y: y + 1,
        heading: Dir::South,
    };
    let mut spot = edges.spot(x, y + 1);
    // Runs up or down and runs along a row take turns, and the first edge goes down.
    'runs: loop {
        let level = turned_upright(&edges, here, spot, policy, sign, trail)?;
        let upright = turned_level(&edges, level.0, level.1, policy, sign, trail)?;
        here = upright.0;
        spot = upright.1;
        if is_first(here, x, y) {
            return Ok(());
        }
    }
}

/// The edge along a row to which a walk turns after a run of edges up or down, which are noted down, and where the edges
/// of the corner stand that it leaves.
//
// Each heading has a loop of its own, in which neither it nor what it asks is looked up again, and in which the
// processor foresees the turns better.
#[inline(always)]
fn turned_upright(
    edges: &Layout,
    edge: Edge,
    spot: Spot,
    policy: Policy,
    sign: Sign,
    trail: &mut Trail,
) -> Result<(Edge, Spot), NoMemory>
    requires boundary { IsBoundary (image_of edges.now.page.now) edge }
    requires spot { IsSpotAt edges.now.rows edges.now.starts.now edge.x edge.y spot }
    requires upright { is_upright edge.heading ≡ true }
    requires sums { AreSumsBelow (2 ^ 62) trail.old }
    ensures run { IfOk result (λ after.
        IsStraightRun (next (image_of edges.now.page.now) policy sign) edge after.0 trail.old trail.new) }
    ensures turns { IfOk result (λ after. is_upright after.0.heading ≡ false) }
    ensures spot { IfOk result (λ after. IsSpotAt edges.now.rows edges.now.starts.now after.0.x after.0.y after.1) }
{
    let Edge { x, y, heading } = edge;
    if matches!(heading, Dir::North) {
        turned_run(
            edges,
            Edge {
                x,
                y,
                heading: Dir::North,
            },
            spot,
            policy,
            sign,
            trail,
        )
    } else {
        turned_run(
            edges,
            Edge {
                x,
                y,
                heading: Dir::South,
            },
            spot,
            policy,
            sign,
            trail,
        )
    }
}

/// And the edge up or down to which it turns after a run of edges along a row.
#[inline(always)]
fn turned_level(
    edges: &Layout,
    edge: Edge,
    spot: Spot,
    policy: Policy,
    sign: Sign,
    trail: &mut Trail,
) -> Result<(Edge, Spot), NoMemory>
    requires boundary { IsBoundary (image_of edges.now.page.now) edge }
    requires spot { IsSpotAt edges.now.rows edges.now.starts.now edge.x edge.y spot }
    requires level { is_upright edge.heading ≡ false }
    requires sums { AreSumsBelow (2 ^ 62) trail.old }
    ensures run { IfOk result (λ after.
        IsStraightRun (next (image_of edges.now.page.now) policy sign) edge after.0 trail.old trail.new) }
    ensures turns { IfOk result (λ after. is_upright after.0.heading ≡ true) }
    ensures spot { IfOk result (λ after. IsSpotAt edges.now.rows edges.now.starts.now after.0.x after.0.y after.1) }
{
    let Edge { x, y, heading } = edge;
    if matches!(heading, Dir::East) {
        turned_run(
            edges,
            Edge {
                x,
                y,
                heading: Dir::East,
            },
            spot,
            policy,
            sign,
            trail,
        )
    } else {
        turned_run(
            edges,
            Edge {
                x,
                y,
                heading: Dir::West,
            },
            spot,
            policy,
            sign,
            trail,
        )
    }
}

/// The edge to which a walk turns after a run of edges with one heading, which are noted down, and where the edges of the
/// corner stand that it leaves.
#[inline(always)]
fn turned_run(
    edges: &Layout,
    from: Edge,
    spot: Spot,
    policy: Policy,
    sign: Sign,
    trail: &mut Trail,
) -> Result<(Edge, Spot), NoMemory>
    requires boundary { IsBoundary (image_of edges.now.page.now) from }
    requires spot { IsSpotAt edges.now.rows edges.now.starts.now from.x from.y spot }
    requires sums { AreSumsBelow (2 ^ 62) trail.old }
    ensures run { IfOk result (λ after.
        IsStraightRun (next (image_of edges.now.page.now) policy sign) from after.0 trail.old trail.new) }
    ensures turns { IfOk result (λ after. is_upright after.0.heading ≡ not (is_upright from.heading)) }
    ensures spot { IfOk result (λ after. IsSpotAt edges.now.rows edges.now.starts.now after.0.x after.0.y after.1) }
{
    // The width is asked, so that the proof sees that a page is small.
    let _ = edges.page.width();
    // The heading stays as it is, so that each heading has a loop of its own.
    let heading = from.heading;
    let (mut x, mut y, mut spot) = (from.x, from.y, spot);
    'edges: loop {
        let after = step(edges, Edge { x, y, heading }, spot, policy, sign, trail)?;
        if after.0.heading != heading {
            return Ok(after);
        }
        x = after.0.x;
        y = after.0.y;
        spot = after.1;
    }
}

/// The edge that follows an edge of a boundary, which is noted down, and where the edges of the corner between stand.
#[inline(always)]
fn step(
    edges: &Layout,
    edge: Edge,
    spot: Spot,
    policy: Policy,
    sign: Sign,
    trail: &mut Trail,
) -> Result<(Edge, Spot), NoMemory>
    requires boundary { IsBoundary (image_of edges.now.page.now) edge }
    requires spot { IsSpotAt edges.now.rows edges.now.starts.now edge.x edge.y spot }
    requires sums { AreSumsBelow (2 ^ 63) trail.old }
    ensures value { IfOk result (λ after. after.0 ≡ next (image_of edges.now.page.now) policy sign edge) }
    ensures boundary { IfOk result (λ after. IsBoundary (image_of edges.now.page.now) after.0) }
    ensures spot { IfOk result (λ after. IsSpotAt edges.now.rows edges.now.starts.now after.0.x after.0.y after.1) }
    ensures noted { OnOk result (AreNoted trail.old trail.new (edge ∷ [])) }
{
    // The width is asked, so that the proof sees that an edge lies on the page.
    let _ = edges.page.width();
    trail.note(edge)?;
    let (ahead, end) = ahead_of(edges, edge, spot);
    let heading = turned_at(edges, end, ahead, policy, sign);
    Ok((
        Edge {
            x: ahead.x,
            y: ahead.y,
            heading,
        },
        end,
    ))
}

/// The edge that would lead straight on from the end of an edge of a boundary, and where the edges of the corner between stand.
#[inline(always)]
fn ahead_of(edges: &Layout, edge: Edge, spot: Spot) -> (Edge, Spot)
    requires boundary { IsBoundary (image_of edges.now.page.now) edge }
    requires spot { IsSpotAt edges.now.rows edges.now.starts.now edge.x edge.y spot }
    ensures ahead { result.0 ≡ edge_from (end_x edge.x edge.heading) (end_y edge.y edge.heading) edge.heading }
    ensures spot { IsSpotAt edges.now.rows edges.now.starts.now result.0.x result.0.y result.1 }
{
    // The width is asked, so that the proof sees that an edge lies on the page.
    let _ = edges.page.width();
    let Edge { x, y, heading } = edge;
    match heading {
        Dir::North => (
            Edge {
                x,
                y: y + 1,
                heading,
            },
            edges.above(spot, x, y),
        ),
        Dir::East => (
            Edge {
                x: x + 1,
                y,
                heading,
            },
            edges.right(spot, x, y),
        ),
        Dir::South => (
            Edge {
                x,
                y: y - 1,
                heading,
            },
            edges.below(spot, x, y),
        ),
        Dir::West => (
            Edge {
                x: x - 1,
                y,
                heading,
            },
            edges.left(spot, x, y),
        ),
    }
}

/// Whether an edge is the left side of pixel (x, y), walked down.
fn is_first(edge: Edge, x: u32, y: u32) -> bool
    requires { y < 2 ^ 31 }
    ensures { MatchBool result (edge ≡ first_edge x y) (edge ≢ first_edge x y) }
{
    edge.x == x && edge.y == y + 1 && matches!(edge.heading, Dir::South)
}
