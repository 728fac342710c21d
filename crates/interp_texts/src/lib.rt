//! The methods of String and StringBuilder that read or make texts, operation by operation (the Java SE 8 API).
//!
//! [`TextRun`] is a thread inside one of them: the texts that it has read, the text that it makes, and the operation that
//! comes next. A text lies in rows whose room a silent step took, so no operation takes memory.
//! `specs/Told.antt` says which plan of `text_stages` it stands for.
#![tactic(auto)]

mod row;
mod run;
mod stage;
mod starting;
mod values;

pub use row::UnitRow;
pub use run::{TextReached, TextRun};
pub use stage::{Known, Part, Tail, TextStage};
pub use starting::first_op;
