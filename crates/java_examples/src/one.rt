//! The first thread of programs of one class.

ghost use Rattle.std.specs.Prelude.{◌≡◌, true, pos, None, Some, [], ◌∷◌, ◌++◌, codes, option_map};
ghost use Rattle.op_core.specs.declared.Line.TheVariants as lines;
ghost use Rattle.op_core.specs.declared.Next.TheVariants.{Want};
ghost use Rattle.op_core.specs.declared.Op.TheVariants.{Init, InitDone, Print, New, Enter, Exit, End};
ghost use Rattle.op_core.specs.declared.Reply.TheVariants.{Claimed, Done, Bad, Made, NotOwner};
ghost use Rattle.builtin_world.specs.declared.Native.TheVariants.{ThreadRun};
ghost use Rattle.link_rules.specs.Classes.{NamedMember, classes_of};
ghost use Rattle.link_rules.specs.Methods.{native_of, method_named};
ghost use Rattle.java_rows.specs.Program.{thread_run, runnable_run};
ghost use Rattle.java_examples.specs.One.{wanted, prints_sum, division, code_of, takes_all, initialized, plain, synchronized, silent, told};

/// The methods by which threads begin are `run` of Thread and of Runnable.
#[tactic(auto, unfolding(builtin_world::specs::Library::library))]
pub fn threads_begin_at_run()
    ensures thread { native_of thread_run ≡ Some ThreadRun }
    ensures runnable { option_map (λ (m : NamedMember). m.name) (method_named (classes_of []) runnable_run) ≡ Some (codes "run") }
{}

/// The class of main is claimed and, since it has no initializer, ready at once. One whose initialization failed before
/// is a NoClassDefFoundError, of which the thread dies.
#[tactic(auto, unfolding(builtin_world::specs::Library::library))]
pub fn the_class_is_initialized_first()
    ensures asks { wanted plain prints_sum [] ≡ Some (Want (Init 29)) }
    ensures ends { wanted plain prints_sum (told Claimed ∷ []) ≡ Some (Want (InitDone 29 true)) }
    ensures bad { wanted plain prints_sum (told Bad ∷ []) ≡ Some (Want (New 25 0)) }
    ensures dies { wanted plain prints_sum (told Bad ∷ told (Made 99) ∷ []) ≡ Some (Want (End (Some 25))) }
{}

/// The frame of main, the fixed object `out`, two constants and their sum: five silent steps, then the line. The return
/// is one silent step, and the thread ends right after it.
#[tactic(auto, unfolding(builtin_world::specs::Library::library, class_names::specs::Reading::kind_at, class_names::specs::Reading::base_at, class_names::specs::Reading::split_at_semicolon, class_names::specs::Reading::spells_class_name, class_names::specs::Kinds::kinds_within))]
pub fn five_steps_lead_to_a_line()
    ensures line { wanted plain prints_sum (initialized ++ silent 5 ∷ []) ≡ Some (Want (Print (lines.Int (pos 5)))) }
    ensures end { wanted plain prints_sum (initialized ++ silent 5 ∷ told Done ∷ silent 1 ∷ []) ≡ Some (Want (End None)) }
{}

/// A zero divisor makes an ArithmeticException at once. Without a handler one silent step ends the frame, and the thread
/// dies of it; with one, one silent step enters the handler.
#[tactic(auto, unfolding(builtin_world::specs::Library::library))]
pub fn a_zero_divisor_is_an_exception()
    ensures made { wanted plain (code_of division []) (initialized ++ silent 3 ∷ []) ≡ Some (Want (New 13 0)) }
    ensures dies { wanted plain (code_of division []) (initialized ++ silent 3 ∷ told (Made 99) ∷ silent 1 ∷ []) ≡ Some (Want (End (Some 13))) }
    ensures caught { wanted plain (code_of division (takes_all ∷ [])) (initialized ++ silent 3 ∷ told (Made 99) ∷ silent 2 ∷ []) ≡ Some (Want (End None)) }
{}

/// A static synchronized main enters the object of its class after the initialization, and exits it before the silent
/// step that ends its frame. If the monitor isn't owned then, the caller makes an IllegalMonitorStateException.
#[tactic(auto, unfolding(builtin_world::specs::Library::library))]
pub fn a_synchronized_main_enters_its_class()
    ensures entered { wanted synchronized (code_of division []) initialized ≡ Some (Want (Enter 57)) }
    ensures exited { wanted synchronized (code_of division (takes_all ∷ [])) (initialized ++ told Done ∷ silent 3 ∷ told (Made 99) ∷ silent 1 ∷ []) ≡ Some (Want (Exit 57)) }
    ensures ended { wanted synchronized (code_of division (takes_all ∷ [])) (initialized ++ told Done ∷ silent 3 ∷ told (Made 99) ∷ silent 1 ∷ told Done ∷ silent 1 ∷ []) ≡ Some (Want (End None)) }
    ensures broken { wanted synchronized (code_of division (takes_all ∷ [])) (initialized ++ told Done ∷ silent 3 ∷ told (Made 99) ∷ silent 1 ∷ told NotOwner ∷ silent 1 ∷ []) ≡ Some (Want (New 20 0)) }
{}
