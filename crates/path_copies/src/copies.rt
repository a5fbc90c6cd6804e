//! The polygons of paths, found once for all copies.
ghost use Rattle.std.specs.Prelude.{◌≡◌, ◌<◌, IfOk, IfSome, length};
ghost use Rattle.pt_core.specs.ClosedWalk.{IsClosedWalk};
ghost use Rattle.pt_core.specs.OnPage.{AreOnPage};
ghost use Rattle.polygon_search.specs.Polygon.{IsBestPolygon, total_penalty};

use crate::key::Key;
use crate::known::KnownPaths;
use polygon_optimal::{PolygonMemo, polygon_by};
use prefix_moments::{Moments, MomentsRoom};
use pt_core::{NoMemory, Point, Polygon, Sequence};
use std::alloc::Global;
use std::marker::Model;

/// The polygons that were found of paths, for their copies, and what else was found of other walks.
#[derive(Drop)]
pub struct Copies {
    memo: PolygonMemo,
    known: KnownPaths<Polygon>,
}

impl Model for Copies {
    ghost use Rattle.std.specs.Prelude.{All};
    ghost use Rattle.path_copies.specs.Inner.KnownPaths.{HasPolygon};

    ghost Value = { Unit };

    ghost view = { λ _. tt };

    ghost invariant = { λ copies. All HasPolygon copies.known };
}

impl Copies {
    /// Nothing was found yet, of so many paths that are to come.
    pub fn new(alloc: Global, memo: PolygonMemo, paths: usize) -> Result<Copies, NoMemory> {
        let known = KnownPaths::new(alloc, paths)?;
        Ok(Copies { memo, known })
    }

    /// No path is kept, as serves where other polygons than the best ones are looked for.
    pub fn none(alloc: Global, memo: PolygonMemo) -> Copies {
        Copies {
            memo,
            known: KnownPaths::none(alloc),
        }
    }

    /// The best polygon through the first point of a closed walk on a page, and the walk's sums.
    pub fn polygon<'p>(
        &mut self,
        alloc: Global,
        points: &'p [Point],
    ) -> Result<(Polygon, Moments<'p>), NoMemory>
        requires closed { IsClosedWalk points.now }
        requires on_page { AreOnPage points.now }
        ensures best { IfOk result (λ both. IsBestPolygon points.now both.0.at) }
        ensures cost { IfOk result (λ both. both.0.cost ≡ total_penalty points.now both.0.at) }
        ensures moments { IfOk result (λ both. both.1 ≡ points.now) }
    {
        let Some(key) = self.known.key(points) else {
            return polygon_by(alloc, points, &mut self.memo);
        };
        if let Some(polygon) = self.known_polygon(alloc, key, points)? {
            let moments = Moments::in_room(self.take_moments(alloc), points)?;
            return Ok((polygon, moments));
        }
        let (polygon, moments) = polygon_by(alloc, points, &mut self.memo)?;
        self.note(alloc, key, points, &polygon)?;
        Ok((polygon, moments))
    }

    /// Room for the sums of a walk, as far as it is kept.
    pub fn take_moments(&mut self, alloc: Global) -> MomentsRoom {
        self.memo.take_moments(alloc)
    }

    /// Keeps the room of a walk's sums, which are no longer asked, for the next walk.
    pub fn keep(&mut self, moments: Moments) {
        self.memo.keep(moments);
    }

    /// The polygon of a path with this key, if a copy of it is known.
    fn known_polygon(
        &self,
        alloc: Global,
        key: Key,
        points: &[Point],
    ) -> Result<Option<Polygon>, NoMemory>
        requires some { 0 < length points.now }
        ensures best { IfOk result (λ found. IfSome found (λ polygon. IsBestPolygon points.now polygon.at)) }
        ensures cost { IfOk result (λ found. IfSome found
            (λ polygon. polygon.cost ≡ total_penalty points.now polygon.at)) }
    {
        let Some(path) = self.known.find(key, points) else {
            return Ok(None);
        };
        let polygon = copy_of(alloc, &path.found)?;
        Ok(Some(polygon))
    }

    /// Notes that a path came that isn't known, or keeps it with its polygon.
    fn note(
        &mut self,
        alloc: Global,
        key: Key,
        points: &[Point],
        polygon: &Polygon,
    ) -> Result<(), NoMemory>
        requires best { IsBestPolygon points.now polygon.now.at }
        requires cost { polygon.now.cost ≡ total_penalty points.now polygon.now.at }
    {
        if self.known.is_due(key, points.len()) {
            let found = copy_of(alloc, polygon)?;
            self.known.keep(alloc, key, points, found)?;
        }
        Ok(())
    }
}

/// The same polygon in a list of its own.
fn copy_of(alloc: Global, polygon: &Polygon) -> Result<Polygon, NoMemory>
    ensures { IfOk result (λ copy. copy ≡ polygon.now) }
{
    let mut at = Vec::new(alloc);
    at.extend_from_slice(polygon.at.as_slice())?;
    Ok(Polygon {
        at: Sequence::from_vec(at),
        cost: polygon.cost,
    })
}
