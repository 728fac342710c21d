//! The classes that a program finds without a file: their names, numbers, superclasses, interfaces,
//! flags, fields and methods, in one table. Nothing here takes memory.
#![tactic(auto)]

ghost use Rattle.std.specs.Prelude.{◌≡◌, ◌≤◌, ◌<◌, ◌↔◌, IsSome, IfSome, Contains, map, find, bytes_eq, slice_get, length};
ghost use Rattle.std.specs.Option.{option_map};
ghost use Rattle.builtin_world.specs.BuiltinClass.{shown_class, rows, row_named, row_numbered};

mod exceptions;
pub mod laws;
pub mod number;
mod table;
pub mod word;

pub use exceptions::MachineException;
use number::COUNT;

/// The constructor or method of the Java SE 8 API that a built-in method is. The constructors of all
/// classes from Throwable down share two, and each other built-in method has one of its own.
#[derive(Clone, Copy)]
pub enum Native {
    /// `Object()`, which does nothing.
    ObjectInit,
    /// `Object.wait()`.
    ObjectWait,
    /// `Object.notify()`.
    ObjectNotify,
    /// `Object.notifyAll()`.
    ObjectNotifyAll,
    /// `Object.equals(Object)`: whether both are one object.
    ObjectEquals,
    /// `PrintStream.println()`.
    PrintlnEmpty,
    /// `PrintStream.println(int)`.
    PrintlnInt,
    /// `PrintStream.println(long)`.
    PrintlnLong,
    /// `PrintStream.println(char)`.
    PrintlnChar,
    /// `PrintStream.println(boolean)`.
    PrintlnBoolean,
    /// `PrintStream.println(String)`.
    PrintlnString,
    /// `Runnable.run()`, which is abstract: a call selects the method of the object's class.
    RunnableRun,
    /// `Thread()`.
    ThreadInit,
    /// `Thread(Runnable)`.
    ThreadInitTarget,
    /// `Thread.start()`.
    ThreadStart,
    /// `Thread.run()`: the `run` of the Runnable that the thread was made with, if there is one.
    ThreadRun,
    /// `Thread.join()`.
    ThreadJoin,
    /// `Thread.setPriority(int)`.
    ThreadSetPriority,
    /// `Thread.getPriority()`.
    ThreadGetPriority,
    /// `Thread.currentThread()`.
    ThreadCurrentThread,
    /// `Thread.yield()`, which does nothing.
    ThreadYield,
    /// `Throwable()`, and the same constructor of each class below.
    ThrowableInit,
    /// `Throwable(String)`, and the same constructor of each class below.
    ThrowableInitMessage,
    /// `Throwable.getMessage()`.
    ThrowableGetMessage,
    /// `String.length()`.
    StringLength,
    /// `String.charAt(int)`.
    StringCharAt,
    /// `String.equals(Object)`: whether it is a String with the same text.
    StringEquals,
    /// `String.concat(String)`.
    StringConcat,
    /// `StringBuilder()`, which does nothing.
    BuilderInit,
    /// `StringBuilder(String)`.
    BuilderInitText,
    /// `StringBuilder.append(int)`.
    AppendInt,
    /// `StringBuilder.append(long)`.
    AppendLong,
    /// `StringBuilder.append(char)`.
    AppendChar,
    /// `StringBuilder.append(boolean)`.
    AppendBoolean,
    /// `StringBuilder.append(String)`.
    AppendString,
    /// `StringBuilder.length()`.
    BuilderLength,
    /// `StringBuilder.toString()`.
    BuilderToString,
}

/// A field of a built-in class that a class file can name.
#[derive(Clone, Copy)]
pub struct BuiltinField {
    pub name: &'static str,
    /// The field descriptor (JVMS 4.3.2).
    pub descriptor: &'static str,
    /// The access flags of JVMS 4.5.
    pub flags: u16,
}

/// A constructor or method that a built-in class declares.
#[derive(Clone, Copy)]
pub struct BuiltinMethod {
    /// The name, `<init>` for a constructor.
    pub name: &'static str,
    /// The method descriptor (JVMS 4.3.3).
    pub descriptor: &'static str,
    /// The access flags of JVMS 4.6.
    pub flags: u16,
    pub native: Native,
}

/// A built-in class or interface.
#[derive(Clone, Copy)]
pub struct BuiltinClass {
    /// The class's number, 1 to `number::COUNT`.
    pub number: u32,
    /// The binary name in its internal form (JVMS 4.2.1), as `java/lang/Object`.
    pub name: &'static str,
    /// The number of the direct superclass, 0 for java/lang/Object.
    pub super_number: u32,
    /// The numbers of the direct superinterfaces.
    pub interfaces: &'static [u32],
    /// The access flags of JVMS 4.1.
    pub flags: u16,
    /// How many words an object has, those of its superclasses among them.
    pub words: u32,
    /// The fields that a class file can name.
    pub fields: &'static [BuiltinField],
    /// The constructors and methods that the class declares itself.
    pub methods: &'static [BuiltinMethod],
}

/// All built-in classes, in the order of their numbers.
pub fn builtins() -> &'static [BuiltinClass]
    ensures rows { map shown_class result.now ≡ rows }
    ensures count { length result.now ≡ COUNT }
{
    &table::CLASSES
}

/// The built-in class of a name, and `None` exactly where no built-in class has it.
pub fn builtin(name: &str) -> Option<BuiltinClass>
    ensures row { option_map shown_class result ≡ row_named name.now }
    ensures found { IsSome result ↔ Contains (map (λ r. r.name) rows) name.now }
    ensures named { IfSome result (λ c. c.name.now ≡ name.now) }
    ensures numbered { IfSome result (λ c. (0 < c.number) × (c.number ≤ COUNT)) }
    ensures super_first { IfSome result (λ c. c.super_number < c.number) }
{
    builtin_named(name.as_bytes())
}

/// The built-in class of a name that is given by its bytes, and `None` exactly where no built-in class has it.
pub fn builtin_named(name: &[u8]) -> Option<BuiltinClass>
    ensures row { option_map shown_class result ≡ row_named name.now }
    ensures found { IsSome result ↔ Contains (map (λ r. r.name) rows) name.now }
    ensures named { IfSome result (λ c. c.name.now ≡ name.now) }
    ensures numbered { IfSome result (λ c. (0 < c.number) × (c.number ≤ COUNT)) }
    ensures super_first { IfSome result (λ c. c.super_number < c.number) }
{
    find_named(builtins(), name)
}

/// The built-in class of a number, and `None` exactly for 0 and for numbers above `number::COUNT`.
pub fn builtin_at(number: u32) -> Option<BuiltinClass>
    ensures row { option_map shown_class result ≡ row_numbered number }
    ensures found { IsSome result ↔ ((0 < number) × (number ≤ COUNT)) }
    ensures numbered { IfSome result (λ c. c.number ≡ number) }
    ensures super_first { IfSome result (λ c. c.super_number < c.number) }
{
    let index = number.checked_sub(1)?;
    class_at(builtins(), index as usize)
}

// The first of some classes that has a name.
fn find_named(classes: &[BuiltinClass], name: &[u8]) -> Option<BuiltinClass>
    ensures { result ≡ find (λ c. bytes_eq c.name.now name.now) classes.now }
{
    classes
        .iter()
        .find(|class| class.name.as_bytes() == name)
        .copied()
}

// The class at an index of some classes.
fn class_at(classes: &[BuiltinClass], index: usize) -> Option<BuiltinClass>
    ensures { result ≡ slice_get classes.now index }
{
    classes.get(index).copied()
}
