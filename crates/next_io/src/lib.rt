//! The outside: where bytes come from, and where they go.
#![tactic(auto)]

mod ahead;
mod gate;
mod input;
mod line_got;
mod line_part;
mod line_reader;
mod memory;
mod pieces;
mod standard;
mod sure;
mod text_line;
mod traits;

pub use gate::{FreeGate, Gate};
pub use input::{ReadError, read_within};
pub use line_got::{LineFault, LineGot};
pub use line_reader::LineReader;
pub use memory::{MemSink, MemSource};
pub use standard::{StdSink, StdSource};
pub use sure::{SureSink, SureSource};
pub use text_line::TextLine;
pub use traits::{Failed, Sink, Source};
