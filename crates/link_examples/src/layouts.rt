//! Numbers, words and fixed objects.

ghost use Rattle.std.specs.Prelude.{◌≡◌, Some, [], ◌∷◌, codes};
ghost use Rattle.link_rules.specs.Classes.{classes_of, class_number};
ghost use Rattle.link_rules.specs.Arrays.{in_order, with_elements, array_of};
ghost use Rattle.link_rules.specs.Names.{program_names, class_count};
ghost use Rattle.link_rules.specs.Layout.{instance_words, static_words};
ghost use Rattle.link_rules.specs.FixedObjects.{class_object, system_out_object, main_thread_object, arguments_object, first_free, class_words_of_unit};
ghost use Rattle.link_examples.specs.Programs.{mixed, mixed_unit, place_of_field};

/// The built-in classes have the numbers from 1 to 28, and the classes of the files those after them.
#[tactic(auto, unfolding(builtin_world::specs::Library::library))]
pub fn numbers_begin_with_the_library()
    ensures object { class_number (classes_of mixed) (codes "java/lang/Object") ≡ 1 }
    ensures thread { class_number (classes_of mixed) (codes "java/lang/Thread") ≡ 7 }
    ensures file { class_number (classes_of mixed) (codes "Mixed") ≡ 29 }
    ensures missing { class_number (classes_of mixed) (codes "mixed") ≡ 0 }
{}

/// Fields follow the words of the superclass in the order of the file, a long as two words: here after the one
/// word of a Throwable.
#[tactic(auto, unfolding(builtin_world::specs::Library::library))]
pub fn long_fields_take_two_words()
    ensures first { place_of_field 0 ≡ 1 }
    ensures static_byte { place_of_field 1 ≡ 0 }
    ensures long { place_of_field 2 ≡ 2 }
    ensures behind_long { place_of_field 3 ≡ 4 }
    ensures static_long { place_of_field 4 ≡ 1 }
    ensures object { instance_words (classes_of mixed) 29 ≡ 5 }
    ensures class_object { static_words (classes_of mixed) 29 ≡ 3 }
    ensures thread { instance_words (classes_of mixed) 7 ≡ 3 }
{}

/// A ConstantValue is there as a store into the field leaves it: 255 in a byte is -1.
pub fn constants_stand_as_they_are_stored()
    ensures { class_words_of_unit (program_names mixed) mixed_unit ≡ 4294967295 ∷ 0 ∷ 0 ∷ [] }
{}

/// Array classes come in the order of the bytes of their descriptors, each once.
pub fn array_classes_stand_by_their_bytes()
    ensures names { in_order (codes "[LA;" ∷ codes "[[I" ∷ codes "[LA/B;" ∷ codes "[I" ∷ codes "[LA;" ∷ [])
        ≡ codes "[I" ∷ codes "[LA/B;" ∷ codes "[LA;" ∷ codes "[[I" ∷ [] }
    ensures elements { with_elements (codes "[[[Z") ≡ codes "[[[Z" ∷ codes "[[Z" ∷ codes "[Z" ∷ [] }
    ensures made { array_of (codes "A/B") ≡ codes "[LA/B;" }
    ensures made_of_arrays { array_of (codes "[J") ≡ codes "[[J" }
{}

/// Class objects lie by number from place 1, each with header, monitor and words; after them come System.out, the main
/// thread, the arguments and the literals.
#[tactic(auto, unfolding(builtin_world::specs::Library::library))]
pub fn fixed_objects_follow_each_other()
    ensures count { class_count (program_names mixed) ≡ 31 }
    ensures first { class_object (program_names mixed) 1 ≡ 1 }
    ensures second { class_object (program_names mixed) 2 ≡ 3 }
    ensures mixed { class_object (program_names mixed) 29 ≡ 57 }
    ensures units { class_object (program_names mixed) 30 ≡ 62 }
    ensures array { class_object (program_names mixed) 31 ≡ 64 }
    ensures out { system_out_object (program_names mixed) ≡ 66 }
    ensures thread { main_thread_object (program_names mixed) ≡ 68 }
    ensures arguments { arguments_object (program_names mixed) ≡ 73 }
    ensures free { first_free (program_names mixed) ≡ 78 }
{}
