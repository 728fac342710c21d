//! Threads of programs of one class and of two.

ghost use Rattle.std.specs.Prelude.{◌≡◌, true, false, pos, None, Some, [], ◌∷◌, ◌++◌};
ghost use Rattle.builtin_world.specs.declared.number.TheConstants.{ARITHMETIC_EXCEPTION, EXCEPTION_IN_INITIALIZER_ERROR, ILLEGAL_MONITOR_STATE_EXCEPTION, INCOMPATIBLE_CLASS_CHANGE_ERROR, THREAD};
ghost use Rattle.builtin_world.specs.declared.word.TheConstants.{THREAD_TARGET};
ghost use Rattle.op_core.specs.declared.Line.TheVariants as lines;
ghost use Rattle.op_core.specs.declared.Next.TheVariants.{Want};
ghost use Rattle.op_core.specs.declared.Op.TheVariants.{ClassOf, Read, Notify, Init, InitDone, Print, New, End};
ghost use Rattle.op_core.specs.declared.Reply.TheVariants.{Class, Value, Woken, NotOwner, Claimed, Ready, Done, Made};
ghost use Rattle.java_examples.specs.One.{initialized, silent, told};
ghost use Rattle.java_examples.specs.Programs.{notifier, below_two, adds_to_long, notified, calls_notify_all, initializer_throws, main_wants, child_wants};

/// notifyAll notifies until no thread waits, asking for no class, and is complete with that reply (JLS 17.2.2).
#[tactic(auto, unfolding(builtin_world::specs::Library::library, class_names::specs::Reading::kind_at, class_names::specs::Reading::base_at, class_names::specs::Reading::split_at_semicolon, class_names::specs::Reading::spells_class_name, class_names::specs::Kinds::kinds_within))]
pub fn notify_all_goes_on()
    ensures first { main_wants notifier calls_notify_all ≡ Some (Want (Notify notified)) }
    ensures again { main_wants notifier (calls_notify_all ++ told (Woken 2) ∷ []) ≡ Some (Want (Notify notified)) }
    ensures ends { main_wants notifier (calls_notify_all ++ told (Woken 2) ∷ told (Woken 0) ∷ silent 1 ∷ []) ≡ Some (Want (End None)) }
    ensures refused { main_wants notifier (calls_notify_all ++ told (Woken 2) ∷ told NotOwner ∷ []) ≡ Some (Want (New ILLEGAL_MONITOR_STATE_EXCEPTION 0)) }
{}

/// `run` of Thread calls `run` of its target, by the target's class, as by invokeinterface of Runnable: here on a Thread,
/// and on an object that is no Runnable. Without a target it is complete.
#[tactic(auto, unfolding(builtin_world::specs::Library::library))]
pub fn run_finds_its_target()
    ensures read { child_wants notifier 99 (Class THREAD 0 ∷ []) ≡ Some (Want (Read 99 THREAD_TARGET)) }
    ensures none { child_wants notifier 99 (Class THREAD 0 ∷ Value 0 ∷ []) ≡ Some (Want (End None)) }
    ensures asks { child_wants notifier 99 (Class THREAD 0 ∷ Value 77 ∷ []) ≡ Some (Want (ClassOf 77)) }
    ensures thread { child_wants notifier 99 (Class THREAD 0 ∷ Value 77 ∷ Class THREAD 0 ∷ []) ≡ Some (Want (Read 77 THREAD_TARGET)) }
    ensures other { child_wants notifier 99 (Class THREAD 0 ∷ Value 77 ∷ Class 29 0 ∷ []) ≡ Some (Want (New INCOMPATIBLE_CLASS_CHANGE_ERROR 0)) }
{}

/// The superclass is initialized first, by its initializer (JLS 12.4.2, steps 7 and 9).
#[tactic(auto, unfolding(builtin_world::specs::Library::library))]
pub fn the_superclass_is_initialized_first()
    ensures above { main_wants below_two (told Claimed ∷ []) ≡ Some (Want (Init 30)) }
    ensures ready { main_wants below_two (told Claimed ∷ told Ready ∷ []) ≡ Some (Want (InitDone 29 true)) }
    ensures division { main_wants below_two (told Claimed ∷ told Claimed ∷ silent 3 ∷ []) ≡ Some (Want (New ARITHMETIC_EXCEPTION 0)) }
{}

/// Where the initializer throws an exception, its class has failed, and an ExceptionInInitializerError takes the place of
/// the exception; it fails the class below as it is, and the thread dies of it (JLS 12.4.2, steps 7, 10 and 11).
#[tactic(auto, unfolding(builtin_world::specs::Library::library))]
pub fn a_failed_initializer_is_one_error()
    ensures failed { main_wants below_two initializer_throws ≡ Some (Want (InitDone 30 false)) }
    ensures made { main_wants below_two (initializer_throws ++ told Done ∷ []) ≡ Some (Want (New EXCEPTION_IN_INITIALIZER_ERROR 0)) }
    ensures below { main_wants below_two (initializer_throws ++ told Done ∷ told (Made 101) ∷ []) ≡ Some (Want (InitDone 29 false)) }
    ensures dies { main_wants below_two (initializer_throws ++ told Done ∷ told (Made 101) ∷ told Done ∷ []) ≡ Some (Want (End (Some EXCEPTION_IN_INITIALIZER_ERROR))) }
{}

/// A long among the arguments of a call takes two locals, with its low half in the lower one. The next argument follows
/// them (JVMS 2.6.1, 6.5 invokestatic).
#[tactic(auto, unfolding(builtin_world::specs::Library::library, class_names::specs::Reading::kind_at, class_names::specs::Reading::base_at, class_names::specs::Reading::split_at_semicolon, class_names::specs::Reading::spells_class_name, class_names::specs::Kinds::kinds_within))]
pub fn a_long_argument_is_two_locals()
    ensures asks { main_wants adds_to_long (initialized ++ silent 4 ∷ []) ≡ Some (Want (Init 29)) }
    ensures line { main_wants adds_to_long (initialized ++ silent 4 ∷ told Ready ∷ silent 6 ∷ []) ≡ Some (Want (Print (lines.Int (pos 12)))) }
{}
