//! Expected values come from computations by hand, or from a plain program.

mod corners;
mod drawings;
mod groups;
mod joins;
mod long_lines;
mod lot;
mod numbers;
mod plain;
mod postscript;
mod samples;
mod search;
mod segments;
mod svg;
mod vertices;
