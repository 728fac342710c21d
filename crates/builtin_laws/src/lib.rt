//! Laws of the names and the types of the built-in classes (JVMS SE 8, 4.2 and 4.3).
#![tactic(auto)]

ghost use Rattle.builtin_laws.specs.Types.{ClassesAreNamed, FieldsAreTyped, MethodsAreTyped};

/// Each built-in class has a class name.
pub fn built_in_classes_are_named()
    ensures { ClassesAreNamed }
{}

/// Each member of a built-in class has a name and a descriptor of its kind. The types in it are not float or double,
/// and the classes in it are built in.
pub fn built_in_members_are_typed()
    ensures fields { FieldsAreTyped }
    ensures methods { MethodsAreTyped }
{}
