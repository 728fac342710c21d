//! A host, which answers the operations of a thread while the thread goes on.

ghost use Rattle.std.specs.Prelude.{◌≡◌, ◌≤◌, IfSome, IfNone};
ghost use Rattle.op_core.specs.Replies.{Fits};

use crate::{Op, Reply};

/// What answers the operations of a thread while the thread goes on, so that nobody has to look at the thread after each
/// of them ([`crate::ThreadCode::run_with`]).
pub trait OpHost: Sized {
    ghost use Rattle.std.specs.Prelude.{ℕ};
    ghost use Rattle.op_core.specs.declared.Op.{Op};
    ghost use Rattle.op_core.specs.declared.Reply.{Reply};

    /// How many silent steps the host now lets the thread make.
    ghost room: { Self → ℕ };

    /// The host may now be asked this operation.
    ghost may: { Self → Op → Type 0 };

    /// The host let the thread make this many silent steps, and is the second one afterwards.
    ghost passes: { Self → ℕ → Self → Type 0 };

    /// The host answered the operation with this reply, and is the second one afterwards.
    ghost answers: { Self → Op → Reply → Self → Type 0 };

    /// The host did not answer the operation, and is the second one afterwards.
    ghost declines: { Self → Op → Self → Type 0 };

    /// How many silent steps the thread may make now.
    fn room(&self) -> u64
        ensures { result ≡ room self.now };

    /// The thread made this many silent steps, at most as many as there was room for.
    fn pass(&mut self, made: u64)
        requires { made ≤ room self.old }
        ensures { passes self.old made self.new };

    /// Answers an operation, or says `None` where it does not answer it.
    fn ask(&mut self, op: Op) -> Option<Reply>
        requires { may self.old op }
        ensures some { IfSome result (λ reply. Fits op reply × answers self.old op reply self.new) }
        ensures none { IfNone result (declines self.old op self.new) };
}
