//! The ends of a session: sources, sinks, clocks and beats, their forms in memory and over the
//! system, the lines of an input, and the writing of whole texts.
//!
//! Guarantees: a line is what its bytes say, and never more bytes are taken than the limit; a text
//! is written whole, or a part of it from its beginning; a fault is answered only where the end's
//! count of faults rose.
//! Leaves to others: what a line means (`shell_words`), and disks (`disk_model`).
#![tactic(auto)]

mod adapters;
mod beat;
mod calls;
mod clock;
mod ends;
mod lines;
mod list_source;
mod vec_sink;
mod writing;

pub use adapters::{SleepBeat, StdClock, StdSink, StdSource};
pub use beat::ListBeat;
pub use clock::ListClock;
pub use ends::{Beat, Clock, Got, Put, Sink, Source};
pub use lines::{Line, Lines, MAX_LINE, limits_are_stated};
pub use list_source::ListSource;
pub use vec_sink::VecSink;
pub use writing::{PutFailed, put_all};

#[cfg(test)]
mod tests;
