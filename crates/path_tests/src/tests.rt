//! Expected values come from computations by hand, or from a plain program.

mod beside_plain;
mod best;
mod certificates;
mod chain;
mod cyclic;
mod greatest;
mod least;
mod longest;
mod paths;
mod plain;
mod plain_best;
mod polygons;
mod rectangles;
mod samples;
mod table;
mod turns;
mod walks;
mod windows;
