//! The outside of the program: where it reads files and where it writes its report.
//!
//! `Source` and `Sink` are what the rest of the program sees. `MemFiles` and `MemSink` keep files
//! and bytes in memory and fail on demand; `RealFiles` and `RealOut` reach the system.
#![tactic(auto)]

mod fault_log;
mod mem_files;
mod mem_sink;
mod real_files;
mod real_out;
mod sink;
mod source;

pub use mem_files::{MemFile, MemFiles};
pub use mem_sink::{MemSink, Memory};
pub use real_files::RealFiles;
pub use real_out::RealOut;
pub use sink::{Sink, WriteFailed};
pub use source::{ReadEnd, Source};
