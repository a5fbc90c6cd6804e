//! What a run writes: its documents, their names, its messages and its exit status.
//!
//! A document is written whole, or a fault cuts it off. Its name comes from the name of its input file or from the
//! output's name. If documents of the same name were made before, it gets a number.
#![tactic(auto)]

pub mod document;
pub mod line;
pub mod made;
pub mod message;
pub mod name;
pub mod names;
pub mod part;
mod pieces;
pub mod status;
pub mod words;

pub use document::write_document;
pub use line::{say_line, say_of_file, say_of_file_page};
pub use made::Made;
pub use message::{
    BAD_WORDS, TRACER, say_bad_words, say_not_opened, say_not_written, say_of_page,
    say_out_of_memory, say_trailing,
};
pub use name::{Name, Names};
pub use names::{backend_suffix, base_name, document_name};
pub use part::{Binding, write_end_part, write_page_part};
pub use status::Status;
pub use words::words_of;
