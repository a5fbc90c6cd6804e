//! The best polygon of a path.
ghost use Rattle.std.specs.Prelude.{◌≡◌, IfOk};
ghost use Rattle.pt_core.specs.ClosedWalk.{IsClosedWalk};
ghost use Rattle.pt_core.specs.OnPage.{AreOnPage};
ghost use Rattle.polygon_search.specs.Inner.Lasts.{HasLasts};
ghost use Rattle.polygon_search.specs.Polygon.{IsBestPolygon, total_penalty};

use crate::memo::PolygonMemo;
use polygon_search::{SearchRoom, Segments, lasts, least_by_windows};
use prefix_moments::{Moments, Roots};
use pt_core::{NoMemory, Point, Polygon};
use std::alloc::Global;
use straight_paths::Memo;

/// The best polygon through the first point of a closed walk on a page.
pub fn polygon(alloc: Global, points: &[Point]) -> Result<Polygon, NoMemory>
    requires closed { IsClosedWalk points.now }
    requires on_page { AreOnPage points.now }
    ensures best { IfOk result (λ polygon. IsBestPolygon points.now polygon.at) }
    ensures cost { IfOk result (λ polygon. polygon.cost ≡ total_penalty points.now polygon.at) }
{
    let (polygon, _) = polygon_with_moments(alloc, points, &mut Memo::none(alloc))?;
    Ok(polygon)
}

/// The same polygon, and the walk's sums, of which it was found, by what was found of other walks.
pub fn polygon_with_moments<'p>(
    alloc: Global,
    points: &'p [Point],
    memo: &mut Memo,
) -> Result<(Polygon, Moments<'p>), NoMemory>
    requires closed { IsClosedWalk points.now }
    requires on_page { AreOnPage points.now }
    ensures best { IfOk result (λ both. IsBestPolygon points.now both.0.at) }
    ensures cost { IfOk result (λ both. both.0.cost ≡ total_penalty points.now both.0.at) }
    ensures moments { IfOk result (λ both. both.1 ≡ points.now) }
{
    measured(
        alloc,
        points,
        memo,
        &mut Roots::none(alloc),
        &mut SearchRoom::new(alloc),
    )
}

/// The same, also by the roots that were taken for other walks.
pub fn polygon_by<'p>(
    alloc: Global,
    points: &'p [Point],
    memo: &mut PolygonMemo,
) -> Result<(Polygon, Moments<'p>), NoMemory>
    requires closed { IsClosedWalk points.now }
    requires on_page { AreOnPage points.now }
    ensures best { IfOk result (λ both. IsBestPolygon points.now both.0.at) }
    ensures cost { IfOk result (λ both. both.0.cost ≡ total_penalty points.now both.0.at) }
    ensures moments { IfOk result (λ both. both.1 ≡ points.now) }
{
    measured(
        alloc,
        points,
        &mut memo.reach,
        &mut memo.roots,
        &mut memo.room,
    )
}

/// The same, by what was found of how far segments reach, by roots, and in the lists that a search takes.
//
// How far segments reach is measured before the points are summed up: the one takes 8 bytes a point, of which 4 are
// given back, the other 8 for a long path, which stay.
fn measured<'p>(
    alloc: Global,
    points: &'p [Point],
    memo: &mut Memo,
    roots: &mut Roots,
    room: &mut SearchRoom,
) -> Result<(Polygon, Moments<'p>), NoMemory>
    requires closed { IsClosedWalk points.now }
    requires on_page { AreOnPage points.now }
    ensures best { IfOk result (λ both. IsBestPolygon points.now both.0.at) }
    ensures cost { IfOk result (λ both. both.0.cost ≡ total_penalty points.now both.0.at) }
    ensures moments { IfOk result (λ both. both.1 ≡ points.now) }
{
    let lasts = lasts(alloc, points, memo)?;
    let moments = Moments::in_room(room.take_moments(alloc), points)?;
    let polygon = polygon_of(alloc, points, &moments, lasts, roots, room)?;
    Ok((polygon, moments))
}

/// The best polygon of a walk that is summed up, where its longest segments lead to these points.
fn polygon_of(
    alloc: Global,
    points: &[Point],
    moments: &Moments,
    lasts: Vec<u32>,
    roots: &mut Roots,
    room: &mut SearchRoom,
) -> Result<Polygon, NoMemory>
    requires points { points.now ≡ moments.now }
    requires closed { IsClosedWalk moments.now }
    requires on_page { AreOnPage moments.now }
    requires lasts { HasLasts moments.now lasts.items }
    ensures best { IfOk result (λ polygon. IsBestPolygon moments.now polygon.at) }
    ensures cost { IfOk result (λ polygon. polygon.cost ≡ total_penalty moments.now polygon.at) }
{
    let segments = Segments::of(moments, points, lasts);
    let walk = least_by_windows(alloc, &segments, roots, room)?;
    room.give_back_long(alloc);
    Ok(Polygon {
        at: walk.at,
        cost: walk.cost,
    })
}
