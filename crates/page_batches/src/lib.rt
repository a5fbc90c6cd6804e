//! Pages that are held in batches, traced, and written as the parts of their documents.
//!
//! What a run does is a list of items, in order: parts of documents to write, and messages to say. A batch
//! holds those that are next, with pages in place of their texts. Where it is full its pages are traced, each
//! once and by several workers, and then its items are carried out one after another, without taking memory. So
//! a run ends between two items or, where a device fails, within one.
#![tactic(auto)]

pub mod batch;
pub mod desk;
pub mod laws;
pub mod plan;

pub use batch::Batch;
pub use desk::Desk;
pub use plan::Plan;
