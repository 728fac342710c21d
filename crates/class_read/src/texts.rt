//! The texts of a class file (JVMS 4.4.7).

ghost use Rattle.std.specs.Prelude.{◌≡◌, ◌⊎◌, ℕ, List, Err, IfOk, IfErr, MatchResult};
ghost use Rattle.class_names.specs.declared.kind.NameRefusal.TheVariants.{Bad, NoMemory};
ghost use Rattle.class_names.specs.ModifiedUtf8.{IsTextOf};
ghost use Rattle.class_read.specs.ClassFile.{IsFile};
ghost use Rattle.class_pool.specs.Pool.{IsUtf8At};
ghost use Rattle.class_pool.specs.PoolRules.{IsText};

use crate::class_file::ClassFile;
use class_names::{NameRefusal, decode_text};
use class_walk::Constant;
use rows::Text;
use std::alloc::Global;

/// The text of the Utf8 entry at an index of a class file that was read: `C0 80` is the character 0, a
/// surrogate pair is its character, and a lone surrogate is `?`.
///
/// `Bad` comes exactly where no Utf8 entry is there. `NoMemory` may come where one does.
pub fn text_of(alloc: Global, file: &ClassFile, index: u16) -> Result<Text, NameRefusal>
    requires { (bytes : List ℕ) × IsFile bytes file.now }
    // What is read is the text that the bytes of the entry stand for.
    ensures found { IfOk result (λ text. (bytes : List ℕ) × IsUtf8At file.now.pool index bytes × IsTextOf bytes text) }
    // It is read, unless memory runs out.
    ensures only { (bytes text : List ℕ) → IsUtf8At file.now.pool index bytes → IsTextOf bytes text →
        MatchResult result (λ read. read ≡ text) (λ e. e ≡ NoMemory) }
    // Where there is no text, the answer says so.
    ensures none { ¬ IsText file.now.pool index → result ≡ Err Bad }
    ensures error { IfErr result (λ e. (e ≡ NoMemory) ⊎ ((e ≡ Bad) × (¬ IsText file.now.pool index))) }
{
    match file.pool.get(usize::from(index)) {
        Some(Constant::Utf8(bytes)) => Ok(decode_text(alloc, bytes.as_slice())?),
        _ => Err(NameRefusal::Bad),
    }
}
