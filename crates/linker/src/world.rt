//! A linked program.

ghost use Rattle.std.specs.Prelude.{◌≡◌};
ghost use Rattle.link_rules.specs.Units.{AreUnits};
ghost use Rattle.link_rules.specs.LinkRules.{link_rules};
ghost use Rattle.linker.specs.Tables.{HasOrder};

use crate::tables::Tables;
use code_decode::ClassUnit;
use std::marker::Model;

/// A program whose class files keep the rules of linking. Contracts see the files; everything else is by numbers, and
/// the readers take no memory and no time to speak of.
///
/// Classes have numbers from 1 on: the built-in ones, those of the files in their order, then the array classes. 0 is
/// no class.
#[derive(Drop)]
pub struct World {
    pub(crate) units: Vec<ClassUnit>,
    pub(crate) tables: Tables,
}

impl Model for World {
    ghost use Rattle.std.specs.Prelude.{List};
    ghost use Rattle.code_decode.specs.declared.code.ClassUnit.{ClassUnit};
    ghost use Rattle.linker.specs.World.{IsWorld};

    ghost Value = { List ClassUnit };

    ghost view = { λ w. w.units.items };

    ghost invariant = { λ w. IsWorld w.units.items w.tables };
}

impl World {
    /// The class files of the program, in their order.
    pub fn units(&self) -> &[ClassUnit]
        ensures { result.now ≡ self.now }
    {
        &self.units
    }

    /// The files were decoded, the rules of linking hold, and the classes can be put in an order in which each comes
    /// after those that it names. Does nothing.
    pub fn is_linked(&self)
        ensures decoded { AreUnits self.now }
        ensures linked { (link_rules self.now).Hold }
        ensures order { HasOrder self.now }
    {
        let _units = self.units.as_slice();
    }
}
