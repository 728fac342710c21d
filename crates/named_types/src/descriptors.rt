//! Small questions on descriptors.

ghost use Rattle.std.specs.Prelude.{◌≡◌, ◌≤◌, sum_by};
ghost use Rattle.link_rules.specs.Classes.{is_array_name};
ghost use Rattle.link_types.specs.Types.{words_of_value};

use link_types::ValueType;

/// Whether a Class entry of this name stands for an array class (JVMS 4.4.1).
pub fn is_array_name(name: &[u8]) -> bool
    ensures { result ≡ is_array_name name.now }
{
    name.first() == Some(&b'[')
}

/// How many words values of these types take.
pub fn words_of_types(types: &[ValueType]) -> u8
    requires { sum_by words_of_value types.now ≤ 255 }
    ensures { result ≡ sum_by words_of_value types.now }
{
    let mut words = 0;
    for value in types {
        words += value.words();
    }
    words
}
