//! Writes a page's outlines as polygons, for programs without curves: AutoCAD's drawing interchange files (DXF), and
//! GeoJSON (RFC 7946).
//!
//! A curve is replaced by eight chords between points on it. Coordinates are in pixels with three decimals, and y grows
//! upwards.
#![tactic(auto)]

mod chords;
pub mod drawing;
pub mod features;
mod fixed;
mod mean;

pub use drawing::dxf;
pub use features::geojson;
