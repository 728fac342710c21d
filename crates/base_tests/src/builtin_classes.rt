//! Tests of built-in classes by name and by number, and of the numbers of machine exceptions.

use builtin_world::{MachineException, builtin, builtin_at, builtin_named, builtins};

#[test]
fn each_class_is_found_by_name_and_by_number(rt: HostRuntime) {
    for class in builtins() {
        assert!(rt; builtin(class.name).is_some_and(|same| same.number == class.number));
        let bytes = class.name.as_bytes();
        assert!(rt; builtin_named(bytes).is_some_and(|same| same.number == class.number));
        assert!(rt; builtin_at(class.number).is_some_and(|same| same.name == class.name));
    }
}

#[test]
fn other_names_and_numbers_have_none(rt: HostRuntime) {
    for name in [
        "",
        "java/lang/",
        "java/lang/Objec",
        "java/lang/Objects",
        "java/lang/Run",
        "java.lang.Object",
        "Object",
        "JAVA/LANG/OBJECT",
        "java/lang/StringBuffer",
        "[Ljava/lang/Object;",
    ] {
        assert!(rt; builtin(name).is_none());
    }
    for number in [0, 29, 30, u32::MAX] {
        assert!(rt; builtin_at(number).is_none());
    }
}

const EXCEPTIONS: [(MachineException, u32); 12] = [
    (MachineException::Arithmetic, 13),
    (MachineException::NullPointer, 14),
    (MachineException::ArrayIndexOutOfBounds, 16),
    (MachineException::NegativeArraySize, 17),
    (MachineException::ArrayStore, 18),
    (MachineException::ClassCast, 19),
    (MachineException::IllegalMonitorState, 20),
    (MachineException::IllegalArgument, 21),
    (MachineException::IllegalThreadState, 22),
    (MachineException::NoClassDefFound, 25),
    (MachineException::ExceptionInInitializer, 26),
    (MachineException::IncompatibleClassChange, 27),
];

#[test]
fn machine_exceptions_have_their_numbers(rt: HostRuntime) {
    for (exception, number) in EXCEPTIONS {
        assert!(rt; exception.class_number() == number);
    }
}
