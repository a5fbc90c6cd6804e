//! Types and traits that all parts of the tracer share: points and paths, rounding, numbers as text, and the
//! outside world.
#![tactic(auto)]

pub mod backend;
pub mod digits;
pub mod fault;
pub mod floor;
pub mod gate;
pub mod inputs;
pub mod limits;
pub mod near;
pub mod outline;
pub mod path;
pub mod piece;
pub mod point;
pub mod policy;
pub mod polygon;
pub mod root;
pub mod sequence;
pub mod settings;
pub mod sink;
pub mod trace;
pub mod unit_text;
pub mod written;

pub use backend::backend_of;
pub use digits::{put_fixed, put_number};
pub use fault::{DeviceFault, NoMemory, OpenFault, SinkFault};
pub use floor::{div_floor, round_unit};
pub use gate::{Gate, NoGate};
pub use inputs::Inputs;
pub use limits::{LONGEST_SIDE, MOST_STEPS};
pub use near::{near_256ths, near_float, near_whole};
pub use outline::{end_of, pieces_at, start_of};
pub use path::{Path, Sign};
pub use piece::Piece;
pub use point::Point;
pub use policy::Policy;
pub use polygon::Polygon;
pub use root::{isqrt, quotient_root};
pub use sequence::Sequence;
pub use settings::{Backend, Settings};
pub use sink::{Outputs, Sink};
pub use trace::{Group, Trace};
pub use unit_text::{put_place, write_step};
pub use written::{write_fixed, write_text};
