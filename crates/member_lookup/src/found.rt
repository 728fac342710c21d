//! What look-up is asked for, and what it finds.

ghost use Rattle.std.specs.Prelude.{◌≡◌, option_map};
ghost use Rattle.member_lookup.specs.Found.{found_row};

use member_table::MemberRow;

/// A field or a method that a class names, by numbers.
#[derive(Clone, Copy)]
pub struct ReferenceNumbers {
    /// The class in which look-up begins: that of the name, and java/lang/Object for an array; 0 where it isn't there.
    pub holder: u32,
    /// The number of the name's text.
    pub name: u32,
    /// The number of the descriptor's text.
    pub descriptor: u32,
}

/// A field or a method that look-up finds.
#[derive(Clone, Copy)]
pub struct Found {
    /// The number of the class that declares it.
    pub class: u32,
    /// Its place among the fields or the methods of that class, from 0.
    pub place: u16,
    /// The access flags (JVMS 4.5, 4.6).
    pub flags: u16,
}

/// What a row says that was found.
pub fn read_row(row: Option<MemberRow>) -> Option<Found>
    ensures { result ≡ option_map found_row row }
{
    let row = row?;
    Some(Found {
        class: row.class,
        place: row.place,
        flags: row.flags,
    })
}
