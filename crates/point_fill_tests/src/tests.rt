//! Texts that are filled or refused, and failing devices.

mod cases;
mod failing;
mod long;
mod texts;
