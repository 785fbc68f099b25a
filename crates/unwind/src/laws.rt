// Laws of the definitions that the contracts cite.
ghost use Rattle.std.specs.Prelude.{◌≡◌, ◌≤◌, ◌∷◌, ℕ, List, Ok, Err, true, false, length};
ghost use Rattle.call_frames.specs.Entry.{EntryView};
ghost use Rattle.call_frames.specs.Finding.{entry_of};
ghost use Rattle.unwind.specs.ByCall.{is_no_code};
ghost use Rattle.unwind.specs.ByTrampoline.{is_trampoline};
ghost use Rattle.unwind.specs.Code.{CodeView, ProcessView, code_of};
ghost use Rattle.unwind.specs.InTurn.{CallersAreOfTheirCalls, NoEntryIsPassedOver, NoFaultIsHidden, NoNextFunctionIsACaller, ReturnAddressesAreUnknown, ReturnAddressesAreUsedOnce};
ghost use Rattle.unwind.specs.Stands as stands;
ghost use Rattle.unwind.specs.Start.{holds_start};
ghost use Rattle.unwind.specs.Unwinding as spec;
ghost use Rattle.unwind.specs.declared.faults.Stop as stops;
ghost use Rattle.unwind.specs.declared.faults.Stop.TheVariants.{Outermost};
ghost use Rattle.unwind.specs.declared.frame.Frame as numbers;

/// The frames of a thread are those of the relation: no frame but the last has a reason to be it, and each other is
/// followed by its next. There are no others, and at most 1,024. This function does nothing.
pub fn the_frames_are_unwound()
    ensures found { (p : ProcessView) (desc : List ℕ) → (behind : List numbers.Frame)
        × (spec.unwound p desc ≡ spec.first_frame desc ∷ behind)
        × spec.IsUnwoundFrom p spec.most (spec.first_frame desc) behind (spec.stop_of p desc) }
    ensures only { (p : ProcessView) (desc : List ℕ) (behind : List numbers.Frame) (stop : stops.Stop)
        → spec.IsUnwoundFrom p spec.most (spec.first_frame desc) behind stop
        → (spec.unwound p desc ≡ spec.first_frame desc ∷ behind) × (spec.stop_of p desc ≡ stop) }
    ensures few { (p : ProcessView) (desc : List ℕ) → length (spec.unwound p desc) ≤ 1024 }
{}

/// Each frame after another follows by one of three rules. A signal saved it. Or a call to no code, or to a stub of the
/// procedure linkage table, was made from it. Or its pc is the value of the return column by its rule, in the row of the
/// first FDE that covers the address that is looked up for the frame before. Then each of its registers, except the one
/// that a call wrote, is also given by its rule in that row. This function does nothing.
pub fn each_frame_stands_on_a_rule()
    ensures { (p : ProcessView) (n : ℕ) (f : numbers.Frame) (behind : List numbers.Frame) (stop : stops.Stop)
        → spec.IsUnwoundFrom p n f behind stop → stands.EachStands p f behind }
{}

/// The stack continues upwards: between two signals no CFA is below the one before, and none with the same pc is equal.
/// This function does nothing.
pub fn the_stack_rises()
    ensures { (p : ProcessView) (desc : List ℕ) (behind : List numbers.Frame) (stop : stops.Stop)
        → spec.IsUnwoundFrom p spec.most (spec.first_frame desc) behind stop
        → stands.EachRises (spec.first_frame desc) behind }
{}

/// Nothing is guessed: a frame that is at no trampoline, whose pc has code, and whose code is no stub and is covered by no FDE is
/// the last. This function does nothing.
pub fn nothing_is_guessed()
    ensures { (p : ProcessView) (n : ℕ) (f : numbers.Frame) → is_trampoline p.space f.pc ≡ false
        → is_no_code p.space f.pc ≡ false
        → ((code : CodeView) → code_of p f ≡ Ok code → stands.AreBare code)
        → (stop : stops.Stop) × (spec.next p n f ≡ Err stop) }
{}

/// The frame after a caller that is at no trampoline comes from an FDE that has the last byte of the call. So if a call is the last
/// instruction of its function, the FDE of the next function is not asked: if no FDE has that byte, no frame comes. This function
/// does nothing.
pub fn callers_are_of_their_calls()
    ensures called { CallersAreOfTheirCalls }
    ensures no_next { NoNextFunctionIsACaller }
{}

/// The answer is `NoEntry` only if no entry of either section has a fault, no FDE has the address, and neither the executable nor its
/// debug file has call frame information that is compressed and not read. This function does nothing.
pub fn no_entry_is_sure()
    ensures faults { NoFaultIsHidden }
    ensures uncovered { NoEntryIsPassedOver }
{}

/// The register to which a call wrote its return address is not known of the frame that made the call. So no return address is taken
/// for that of another call: if by the row of that frame its own is still in that register, no frame comes. This function does nothing.
pub fn a_return_address_is_used_once()
    ensures unknown { ReturnAddressesAreUnknown }
    ensures once { ReturnAddressesAreUsedOnce }
{}

/// Nothing called the code at which the program begins: a frame that is at no trampoline, whose pc has code, and whose code is covered
/// by an FDE that covers the address of the start too, is the outermost, whatever the row of the FDE says. This function does nothing.
pub fn the_start_is_outermost()
    ensures { (p : ProcessView) (n : ℕ) (f : numbers.Frame) (code : CodeView) (e : EntryView) → is_trampoline p.space f.pc ≡ false
        → is_no_code p.space f.pc ≡ false → code_of p f ≡ Ok code → entry_of code.image code.debug code.address ≡ Ok e
        → holds_start p.start f code.address e ≡ true → spec.next p n f ≡ Err Outermost }
{}
