//! What instructions make.

ghost use Rattle.std.specs.Prelude.{◌≡◌};
ghost use Rattle.type_rules.specs.Environments.{made_by};

use builtin_world::number::OBJECT;
use instructions::{ClassUse, Target, What};
use link_types::ObjectType;
use map_frames::{PoolOperands, object_type};

/// What an instruction makes, if it is a `new`.
pub fn made_by<P: PoolOperands>(pool: &P, what: &What<Target>) -> ObjectType
    ensures { result ≡ made_by (P.operands pool.now) what.now }
{
    match what {
        What::Class(ClassUse::New, index) => object_type(pool.operand(*index)),
        _ => ObjectType::Class(OBJECT),
    }
}
