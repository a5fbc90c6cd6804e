//! Worked pages, what is refused, failing devices, and workers.

mod cases;
mod certificates;
mod claims;
mod cuts;
mod distances;
mod failing;
mod files;
mod formats;
mod hostile;
mod longest;
mod many_paths;
mod memory;
mod one_picture;
mod pages;
mod postscript;
mod refusals;
mod streams;
mod words;
mod workers;
mod workers_alone;
