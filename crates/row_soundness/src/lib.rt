//! Type soundness of the rows of Java's instructions: where the operands, the locals and the waiting frames of a thread have the
//! types that verification gives them, each row keeps them so, over anything that may be known of references. Laws alone.
//!
//! `specs/Senses.antt` has what may be known, `specs/Fits.antt` what fits, `specs/Accepted.antt` what is asked of a program,
//! `specs/Rows.antt` what the rows of instructions have to give; `specs/Runs.antt` and `specs/Kinds.antt` are the two ways to know, and
//! `specs/ClassesFollow.antt` has the facts on classes that the first one asks for. The lemma over every way to know is `rows_fit` in
//! `proofs/RowsTogether.antt`; the lemmas that every row uses are `pub` in `proofs/`.
#![tactic(auto)]

mod knowledge_laws;
mod object_laws;
mod row_laws;

pub use knowledge_laws::kinds_are_known;
pub use object_laws::objects_are_known;
pub use row_laws::{kinds_rows_fit, runs_rows_fit};
