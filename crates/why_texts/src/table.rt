//! The rules of each stage, by number from 1. `scripts/refusal_rules` makes this file from the tables of the pages
//! `docs/refusals.md`, `docs/linking.md` and `docs/verification.md`. Don't edit it.

use crate::rule::Rule;

/// The rules of class files (JVMS 4.1 to 4.9).
pub(crate) const READ_RULES: [Rule; 12] = [
    Rule {
        kind: "Magic",
        comes_where: "the file doesn't begin with the bytes CA FE BA BE",
        to_do: "compile the source with javac --release 8",
    },
    Rule {
        kind: "Version",
        comes_where: "the version is none of 50, 51 and 52",
        to_do: "compile with --release 8",
    },
    Rule {
        kind: "Truncated",
        comes_where: "a part of the file goes past its end",
        to_do: "copy or compile it again",
    },
    Rule {
        kind: "PoolTag",
        comes_where: "an entry of the constant pool has a tag that does not exist",
        to_do: "compile it again",
    },
    Rule {
        kind: "PoolIndex",
        comes_where: "an index isn't one of an entry of the kind that is wanted",
        to_do: "compile it again",
    },
    Rule {
        kind: "BadUtf",
        comes_where: "a text of the constant pool isn't modified UTF-8",
        to_do: "compile it again",
    },
    Rule {
        kind: "BadDescriptor",
        comes_where: "a text is used as a name or a descriptor, and isn't one",
        to_do: "a name has none of ., ;, [ and /",
    },
    Rule {
        kind: "Trailing",
        comes_where: "there are bytes after the class",
        to_do: "keep one file for each class",
    },
    Rule {
        kind: "TooLong",
        comes_where: "the file has more than 1,048,576 bytes",
        to_do: "split the class",
    },
    Rule {
        kind: "Attribute",
        comes_where: "a ConstantValue, Code or StackMapTable is malformed, comes after another one of its kind, or is a constant of the wrong kind",
        to_do: "compile it again",
    },
    Rule {
        kind: "Flags",
        comes_where: "flags contradict each other",
        to_do: "leave one out",
    },
    Rule {
        kind: "Member",
        comes_where: "a member repeats an earlier one; a method has code and is abstract or native, or has none and is neither",
        to_do: "leave one out, or write the body",
    },
];

/// The rules of code (JVMS 4.9.1), and of what is executed here.
pub(crate) const CODE_RULES: [Rule; 9] = [
    Rule {
        kind: "Opcode",
        comes_where: "a byte is no instruction's number",
        to_do: "compile it again",
    },
    Rule {
        kind: "Unsupported",
        comes_where: "the instruction isn't executed here: float and double, jsr and ret, invokedynamic, multianewarray, constants of other kinds",
        to_do: "an anonymous class for a lambda, int and long, one dimension at a time",
    },
    Rule {
        kind: "Cut",
        comes_where: "the operands of the last instruction go past the end",
        to_do: "compile it again",
    },
    Rule {
        kind: "Target",
        comes_where: "a branch leads where no instruction begins",
        to_do: "put the label before an instruction",
    },
    Rule {
        kind: "Handler",
        comes_where: "the range of a handler is malformed, or what it catches is no class",
        to_do: "exchange the labels",
    },
    Rule {
        kind: "Frame",
        comes_where: "a stack map frame is malformed",
        to_do: "put it before an instruction",
    },
    Rule {
        kind: "Length",
        comes_where: "the code has no bytes, or more than 65,535",
        to_do: "write at least its return",
    },
    Rule {
        kind: "Switch",
        comes_where: "the keys of a switch don't rise, or its lowest is above its highest",
        to_do: "sort the keys",
    },
    Rule {
        kind: "Operand",
        comes_where: "the instruction may not have this operand",
        to_do: "call a constructor by invokespecial; move the method into a class",
    },
];

/// The rules of classes that fit together (JVMS 5.3 to 5.5).
pub(crate) const LINK_RULES: [Rule; 16] = [
    Rule {
        kind: "Twice",
        comes_where: "two files define a class of one name, or one defines a built-in class",
        to_do: "give one of them another name",
    },
    Rule {
        kind: "Missing",
        comes_where: "a superclass, an interface, or a class that an instruction or a handler names doesn't exist; for an array class, the class of its innermost elements",
        to_do: "add the file; use what the page of built-in classes lists",
    },
    Rule {
        kind: "Cycle",
        comes_where: "a class is its own superclass or superinterface, through others or directly",
        to_do: "compile all files together",
    },
    Rule {
        kind: "FinalSuper",
        comes_where: "a class extends a final class",
        to_do: "compile all files together",
    },
    Rule {
        kind: "NotInterface",
        comes_where: "what follows implements, or is called by invokeinterface, is a class",
        to_do: "compile all files together",
    },
    Rule {
        kind: "NoField",
        comes_where: "a field of this name and descriptor is neither in the class nor above it; or System.out is assigned",
        to_do: "compile all files together",
    },
    Rule {
        kind: "NoMethod",
        comes_where: "a method of this name and descriptor is neither in the class nor above it; a class that isn't abstract doesn't implement an abstract method; super.m() finds an abstract one",
        to_do: "use what the page of built-in classes lists, or add the method",
    },
    Rule {
        kind: "StaticMismatch",
        comes_where: "a static member where the instruction wants one of an object, or the other way round",
        to_do: "compile all files together",
    },
    Rule {
        kind: "Private",
        comes_where: "a private member of another class is named; or what implements a method of an interface isn't public",
        to_do: "compile all files together",
    },
    Rule {
        kind: "VolatileLong",
        comes_where: "a field is a volatile long",
        to_do: "guard a plain long with a monitor",
    },
    Rule {
        kind: "Native",
        comes_where: "a method is native",
        to_do: "there are no native methods but the built-in ones",
    },
    Rule {
        kind: "DefaultMethod",
        comes_where: "a method of an interface has code",
        to_do: "move it into a class",
    },
    Rule {
        kind: "TooMany",
        comes_where: "there are more than 1,024 class files",
        to_do: "leave out the classes that the program doesn't use",
    },
    Rule {
        kind: "FloatUse",
        comes_where: "the descriptor of a field or a method has a float or a double",
        to_do: "use int or long",
    },
    Rule {
        kind: "FinalMethod",
        comes_where: "a method overrides a final one",
        to_do: "give it another name; compile all files together",
    },
    Rule {
        kind: "NotClass",
        comes_where: "a class extends an interface, or an interface another class than Object; new of an interface, an abstract class or an array class; a call of a method of an interface that isn't made by invokeinterface",
        to_do: "compile all files together",
    },
];

/// The rules of type safe methods (JVMS 4.10.1).
pub(crate) const VERIFY_RULES: [Rule; 9] = [
    Rule {
        kind: "StackShape",
        comes_where: "the stack has fewer words than the instruction takes",
        to_do: "push the operands; javap -c shows the code",
    },
    Rule {
        kind: "TypeMismatch",
        comes_where: "a word on the stack or in a local is of another type, or half of a long; an <init> is called on what is initialized, or is of the wrong class; a handler catches a class that is no Throwable",
        to_do: "use the instruction of the type: areturn, pop2; compile all files together where a class has changed its superclass",
    },
    Rule {
        kind: "FrameMissing",
        comes_where: "there is no stack map frame where a branch or a handler leads, or after an instruction that doesn't go on to the next one",
        to_do: "write the frame; a compiler before version 50 writes none: compile again",
    },
    Rule {
        kind: "FrameMismatch",
        comes_where: "what comes to a stack map frame isn't assignable to it; at the first instruction it isn't the entry frame",
        to_do: "set the local on each way, or leave it out of the frame",
    },
    Rule {
        kind: "FallsOff",
        comes_where: "the last instruction would be followed by another one",
        to_do: "end it with a return, an athrow or a goto",
    },
    Rule {
        kind: "Limits",
        comes_where: "the parameters, a map frame, a local or the stack take more words than the method says",
        to_do: "raise stack or locals; a long takes two",
    },
    Rule {
        kind: "Uninit",
        comes_where: "an initialized object is wanted, and the one there isn't initialized; new finds on the stack what it made before; a constructor returns before it has called another one",
        to_do: "call <init> first, on a copy: new A; dup; invokespecial A <init> ()V",
    },
    Rule {
        kind: "InitCovered",
        comes_where: "a handler covers an instruction of a constructor at which its object isn't initialized",
        to_do: "begin it after the call of the superclass's <init>",
    },
    Rule {
        kind: "ReturnType",
        comes_where: "a return doesn't fit the method's result",
        to_do: "return what the descriptor says",
    },
];
