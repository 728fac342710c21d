//! What a method of String or StringBuilder does that reads or makes texts.

/// What is appended to a builder, by its words.
#[derive(Clone, Copy)]
pub enum Appended {
    Int(u32),
    Long { low: u32, high: u32 },
    Char(u32),
    Boolean(u32),
    /// A String, or null.
    Text(u32),
}

/// What the method does, with its operands.
#[derive(Clone, Copy)]
pub enum TextJob {
    /// Returns the length of a String.
    Lengthens(u32),
    /// Returns the char of a String at an index.
    Picks { string: u32, index: u32 },
    /// Says whether another object, which isn't null, is a String with the same text.
    Matches { string: u32, other: u32 },
    /// Joins a String and another one, which isn't null.
    Joins { string: u32, other: u32 },
    /// Gives a new builder the text of a String.
    Copies { builder: u32, string: u32 },
    /// Appends to a builder.
    Extends { builder: u32, appended: Appended },
    /// Returns the length of a builder's text.
    Measures(u32),
    /// Makes a String of a builder's text.
    Tells(u32),
}
