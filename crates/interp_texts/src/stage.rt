//! Where a thread is in a method that reads or makes texts.

use frame_snapshot::Appended;

/// Which of the two texts that a method reads.
#[derive(Clone, Copy)]
pub enum Part {
    First,
    Second,
}

/// What comes after the first text in the one that is made.
#[derive(Clone, Copy)]
pub enum Tail {
    Nothing,
    /// The second text.
    Second,
    /// The text of a value.
    Value(Appended),
}

/// The operation or the silent step that comes next, with an array and a String by their references.
#[derive(Clone, Copy)]
pub enum TextStage {
    /// The class of the object that a String is compared with.
    AsksOther,
    /// The word of the builder.
    AsksBuilder,
    /// The word of a String.
    AsksWord {
        part: Part,
        string: u32,
    },
    /// The number of a literal.
    AsksNumber {
        part: Part,
        string: u32,
    },
    /// The length of an array.
    AsksSize {
        part: Part,
        array: u32,
    },
    /// A silent step takes the room for the units of an array.
    TakesRoom {
        part: Part,
        array: u32,
        count: u32,
    },
    /// The unit at a place of an array; afterwards this many more.
    AsksUnit {
        part: Part,
        array: u32,
        place: u32,
        left: u32,
    },
    /// A silent step takes the room for the new text.
    MakesRoom(Tail),
    /// A new array, of this class.
    AsksArray(u32),
    /// The unit at a place of the new array is written; afterwards this many more.
    AsksWrite {
        array: u32,
        place: u32,
        left: u32,
    },
    /// A new String, for an array.
    AsksString(u32),
    /// Its word is written.
    AsksBind {
        array: u32,
        string: u32,
    },
    /// The word of the builder is written: a String.
    AsksKeep(u32),
}

/// Where the units of a text are: with the literal of a number, or in the row beside it.
#[derive(Clone, Copy)]
pub enum Known {
    Literal(u32),
    Read,
}
