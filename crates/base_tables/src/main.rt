//! Prints the table of instructions and that of built-in classes, to be compared with what JVMS 6.5 and the
//! documentation of the Java SE 8 API say.
#![tactic(auto)]

mod classes;
mod instruction_rows;

use classes::print_classes;
use instruction_rows::print_rows;
use std::io;

fn main(rt: HostRuntime) -> io::Result<()> {
    print_rows(&rt)?;
    print_classes(&rt)
}
