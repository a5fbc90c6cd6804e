//! What no clause says: the texts of faults, that pages are read if there is enough memory, and whole files
//! beside what a person reads in them, however the reads split them.

mod answers;
mod bmp;
mod bmp_refusals;
mod color;
mod gray;
mod gray_rows;
mod pages;
mod rows;
mod tables;
