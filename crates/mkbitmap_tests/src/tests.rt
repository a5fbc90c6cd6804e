//! Pages, command lines, and failing devices.

mod cases;
mod failing;
mod pages;
mod words;
