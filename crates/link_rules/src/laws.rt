//! The laws of linking. Each function does nothing: its contract is the law.

ghost use Rattle.std.specs.Prelude.{◌≡◌, ℕ, List, Some};
ghost use Rattle.class_pool.specs.Pool.{Reference};
ghost use Rattle.code_decode.specs.declared.code.ClassUnit.{ClassUnit};
ghost use Rattle.link_types.specs.declared.operands.MethodId.{MethodId};
ghost use Rattle.link_types.specs.declared.refusal.LinkRefusal.{LinkRefusal};
ghost use Rattle.link_rules.specs.Units.{AreUnits};
ghost use Rattle.link_rules.specs.Classes.{NamedClass, classes_of};
ghost use Rattle.link_rules.specs.Members.{Declared, selected, found_field, found_method};
ghost use Rattle.link_rules.specs.Methods.{initializer};
ghost use Rattle.link_rules.specs.Names.{program_names};
ghost use Rattle.link_rules.specs.FixedObjects.{objects_at_start, first_free};
ghost use Rattle.link_rules.specs.LinkRules.{link_rules};
ghost use Rattle.link_rules.specs.Linked.{IsLinked, IsClassNumber};
ghost use Rattle.link_rules.specs.Uses.{ClassUsesResolve, CallsResolve, InterfaceCallsResolve, FieldUsesResolve, ClassLiteralsResolve, HandlersResolve};
ghost use Rattle.link_rules.specs.Laws.{RunsUp, IsSelected, IsFoundField, IsFoundMethod, StaticFieldsLieApart, ObjectFieldsLieApart, ObjectsGrow, LieInARow, InitializesClass, NamesHaveOneNumber, ExceptionsAreThrowable, LiteralsAreThere, ArraysAreThere, ObjectsHaveMethods, ObjectsSelectMethods, ClassesAreOrdered, SubclassesAreOrdered, BelowMeansAbove};

/// A program whose rules hold is refused for nothing, and another one for one rule at most.
pub fn programs_have_one_answer()
    ensures linked { (us : List ClassUnit) (e : LinkRefusal) → (link_rules us).Hold → ¬ (link_rules us).Refuse e }
    ensures refused { (us : List ClassUnit) (e d : LinkRefusal) → (link_rules us).Refuse e → (link_rules us).Refuse d → e ≡ d }
{}

/// The superclasses of a class are itself and those of its superclass, up to java/lang/Object.
pub fn superclasses_run_up()
    ensures { (us : List ClassUnit) (order : List ℕ) (c : ℕ) → IsLinked us order → IsClassNumber (classes_of us) c → RunsUp (classes_of us) c }
{}

/// An object of a class begins with the words of an object of each superclass.
pub fn objects_grow()
    ensures { (us : List ClassUnit) (order : List ℕ) → IsLinked us order → ObjectsGrow (classes_of us) }
{}

/// The static fields of a class have words of their own in its class object.
pub fn static_fields_lie_apart()
    ensures { (cs : List NamedClass) → StaticFieldsLieApart cs }
{}

/// The other fields of a class and of its superclasses have words of their own in its objects.
pub fn object_fields_lie_apart()
    ensures { (us : List ClassUnit) (order : List ℕ) → IsLinked us order → ObjectFieldsLieApart (classes_of us) }
{}

/// The objects that are there as a program begins lie one after the other from place 1 to the first free place.
pub fn fixed_objects_lie_in_a_row()
    ensures { (us : List ClassUnit) → LieInARow 1 (objects_at_start (program_names us) us) (first_free (program_names us)) }
{}

/// What is selected is a method of the class or of a superclass, of the wanted name and descriptor, and neither static
/// nor private.
pub fn selected_methods_fit()
    ensures { (cs : List NamedClass) (c : ℕ) (r : Reference) (d : Declared) → selected cs c r ≡ Some d → IsSelected cs c r d }
{}

/// The method that initializes a class is a static method of a class file that has no parameters and no result.
pub fn initializers_take_nothing()
    ensures { (us : List ClassUnit) (c : ℕ) (id : MethodId) → (link_rules us).Hold → initializer (classes_of us) c ≡ Some id →
        InitializesClass (program_names us) c id }
{}

/// A member that look-up finds is declared by a class that the look-up goes through, and has the wanted name and
/// descriptor; a constructor is declared by the named class.
pub fn found_members_fit()
    ensures field { (cs : List NamedClass) (r : Reference) (d : Declared) → found_field cs r ≡ Some d → IsFoundField cs r d }
    ensures method { (cs : List NamedClass) (r : Reference) (d : Declared) → found_method cs r ≡ Some d → IsFoundMethod cs r d }
{}

/// No two classes of a program have one name.
pub fn names_have_one_number()
    ensures { (us : List ClassUnit) → (link_rules us).Hold → NamesHaveOneNumber (classes_of us) }
{}

/// A class that isn't abstract has an implementation of each method of its superclasses that is neither static nor
/// private, and of each abstract method of the classes and interfaces above it.
pub fn objects_have_methods()
    ensures superclasses { (us : List ClassUnit) → (link_rules us).Hold → ObjectsSelectMethods us }
    ensures abstract_ones { (us : List ClassUnit) → (link_rules us).Hold → ObjectsHaveMethods us }
{}

/// The array classes that instructions use have class numbers, and so have the arrays that are their elements.
pub fn arrays_are_there()
    ensures { (us : List ClassUnit) → ArraysAreThere us }
{}

/// Each string literal has a number, at which its text is found.
pub fn literals_are_there()
    ensures { (us : List ClassUnit) → LiteralsAreThere us }
{}

/// The exceptions of the library are below java/lang/Throwable.
pub fn exceptions_are_throwable()
    ensures { (us : List ClassUnit) (order : List ℕ) → IsLinked us order → ExceptionsAreThrowable (classes_of us) }
{}

/// The operand of each instruction on a class or a field and of each call is of the kind that it wants: `new` makes an
/// object of a class that is no interface and not abstract, and array classes have numbers; a field has its place and
/// its type; a member is static exactly where the instruction wants one, private in its own class alone, and not
/// abstract where invokespecial calls it. Class literals and handlers name classes of the program.
pub fn uses_resolve()
    ensures classes { (us : List ClassUnit) → (link_rules us).Hold → ClassUsesResolve us }
    ensures calls { (us : List ClassUnit) → (link_rules us).Hold → CallsResolve us }
    ensures fields { (us : List ClassUnit) → AreUnits us → (link_rules us).Hold → FieldUsesResolve us }
    ensures literals { (us : List ClassUnit) → (link_rules us).Hold → ClassLiteralsResolve us }
    ensures handlers { (us : List ClassUnit) → (link_rules us).Hold → HandlersResolve us }
    ensures interface_calls { (us : List ClassUnit) → (link_rules us).Hold → InterfaceCallsResolve us }
{}

/// A class is below another one, as instanceof sees them, exactly where that is Object, the class itself, or above it by
/// superclasses and interfaces. Classes and array classes are ordered so, with Object on top.
pub fn subclasses_are_ordered()
    ensures above { (us : List ClassUnit) (order : List ℕ) → IsLinked us order → BelowMeansAbove (classes_of us) }
    ensures classes { (us : List ClassUnit) (order : List ℕ) → IsLinked us order → ClassesAreOrdered (classes_of us) }
    ensures all { (us : List ClassUnit) (order : List ℕ) → IsLinked us order → SubclassesAreOrdered (program_names us) }
{}
