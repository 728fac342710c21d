//! How many bytes an instruction takes.

ghost use Rattle.std.specs.Prelude.{◌≡◌};
ghost use Rattle.code_steps.specs.Operands.{padding_of};
ghost use Rattle.code_write.specs.Instruction.{size};

/// What the size of an instruction depends on, apart from its offset.
#[derive(Clone, Copy)]
pub enum Shape {
    /// It has this many bytes at any offset, counting the byte of a wide before it.
    Fixed(u8),
    /// A tableswitch with this many targets besides the default one.
    TableSwitch(u32),
    /// A lookupswitch with this many cases.
    LookupSwitch(u32),
}

impl Shape {
    /// How many bytes the instruction takes at an offset; the operands of a switch begin with a padding, which
    /// depends on it (JVMS 6.5).
    pub fn size_at(self, at: u32) -> u64
        ensures { result ≡ size at self }
    {
        match self {
            Shape::Fixed(bytes) => u64::from(bytes),
            Shape::TableSwitch(targets) => 1 + padding_at(at) + 12 + 4 * u64::from(targets),
            Shape::LookupSwitch(cases) => 1 + padding_at(at) + 8 + 8 * u64::from(cases),
        }
    }
}

/// How many bytes lie between the opcode of a switch at this offset and the next offset that is a multiple of 4.
fn padding_at(at: u32) -> u64
    ensures { result ≡ padding_of at }
{
    3 - u64::from(at % 4)
}
