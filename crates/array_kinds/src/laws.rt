//! What array types are to the names of Class entries.

ghost use Rattle.std.specs.Prelude.{◌≡◌, ◌∷◌, [], ℕ, List, false};
ghost use Rattle.code_steps.specs.Operands.{has_dimensions};
ghost use Rattle.code_laws.specs.File.{IsClassOrArray};
ghost use Rattle.instructions.specs.declared.operation.PrimitiveType.{PrimitiveType};
ghost use Rattle.link_types.specs.declared.types.ElementType.{ElementType};
ghost use Rattle.link_types.specs.declared.types.ObjectType.TheVariants.{Array};
ghost use Rattle.link_rules.specs.Arrays.{array_of, where_array, primitive_array};
ghost use Rattle.link_rules.specs.Names.{ProgramNames, type_named};
ghost use Rattle.link_rules.specs.LinkRules.{IsClassThere};
ghost use Rattle.array_order.specs.Order.{array_text};
ghost use Rattle.base_order.specs.Bases.{base_text, IsBase};
ghost use Rattle.array_kinds.specs.declared.kind.ArrayKind.{ArrayKind};
ghost use Rattle.array_kinds.specs.Kinds.{array_kind, array_itself, array_of_type, primitive_kind, Spells, SpellKind, IsTypeThere};

/// The names of array classes spell their types: that of a Class entry, that of the arrays that anewarray makes of one,
/// and those that newarray makes.
pub fn arrays_are_spelled()
    ensures itself { (p : ProgramNames) (name : List ℕ) → IsClassOrArray name → SpellKind p (array_itself (type_named p name)) (where_array name) }
    ensures made { (p : ProgramNames) (name : List ℕ) → IsClassOrArray name → has_dimensions 255 name ≡ false →
        SpellKind p (array_of_type (type_named p name)) (array_of name ∷ []) }
    ensures primitive { (p : ProgramNames) (kind : PrimitiveType) → Spells p (primitive_kind kind) (primitive_array kind) }
{}

/// An array type whose class of innermost elements the program has is spelled by the descriptor of that class.
pub fn arrays_are_spelled_by_bases()
    ensures { (p : ProgramNames) (a : ArrayKind) (text : List ℕ) → Spells p a text → IsBase p.classes a.base →
        text ≡ array_text a.dimensions (base_text p.classes a.base) }
{}

/// Where the class of a Class entry is there, so is that of its type.
pub fn named_types_are_there()
    ensures { (p : ProgramNames) (k : ℕ) (name : List ℕ) → IsClassOrArray name → IsClassThere p.classes k name → IsTypeThere p.classes (type_named p name) }
{}

/// A text spells an array type exactly where that is the type of a Class entry of this text.
pub fn spelled_arrays_are_named()
    ensures named { (p : ProgramNames) (a : ArrayKind) (text : List ℕ) → Spells p a text → type_named p text ≡ Array a.dimensions a.base }
    ensures spelled { (p : ProgramNames) (text : List ℕ) (d : ℕ) (base : ElementType) → type_named p text ≡ Array d base → Spells p (array_kind d base) text }
{}
