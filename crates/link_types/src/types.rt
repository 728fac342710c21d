//! Types by numbers (JVMS 2.3, 2.4).

ghost use Rattle.std.specs.Prelude.{◌≡◌};
ghost use Rattle.link_types.specs.Types.{words_of_value};

/// The type of the innermost elements of an array (JVMS 2.4). A class is given by its number.
#[derive(Clone, Copy)]
pub enum ElementType {
    Boolean,
    Byte,
    Char,
    Short,
    Int,
    Long,
    Float,
    Double,
    /// A class or interface of the program.
    Class(u32),
    /// A class that the program hasn't got, by the number of its name.
    Other(u32),
}

/// The type of a reference (JVMS 2.4). A class is given by its number.
#[derive(Clone, Copy)]
pub enum ObjectType {
    /// A class or interface of the program.
    Class(u32),
    /// A class that the program hasn't got, by the number of its name. Names have one number where they are the same.
    Other(u32),
    /// An array of the given number of dimensions, from 1 to 255, and the type of its innermost elements.
    Array(u8, ElementType),
}

/// The type of a field, a parameter or a result. No member of a linked class has a float or a double.
#[derive(Clone, Copy)]
pub enum ValueType {
    Boolean,
    Byte,
    Char,
    Short,
    Int,
    Long,
    Object(ObjectType),
}

impl ValueType {
    /// How many 32-bit words a value takes: a long two, each other value one.
    pub fn words(self) -> u8
        ensures { result ≡ words_of_value self }
    {
        match self {
            ValueType::Long => 2,
            _ => 1,
        }
    }
}
