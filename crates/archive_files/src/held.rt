// The reply to one line, which is held until the archive is let go.
ghost use Rattle.std.specs.Prelude.{◌≡◌, ◌<◌, ◌≤◌, [], true, false, length, drop, take, IfOk, OnOk, OnErr};
ghost use Rattle.std.specs.Io.KnownBytes.{Appends, Keeps, WriteAppends, append_known};
ghost use Rattle.diagnostics.specs.Counts.{HasRisen};
ghost use Rattle.archive_files.specs.Holding.{taken_by};

use crate::unsent::Unsent;
use diagnostics::after_failure;
use script_streams::{Output, StreamFault};
use std::alloc::Global;

/// An output that takes a reply and holds it. So a slow reader of the reply keeps nobody from the archive. If there is no
/// memory to hold it, it is passed to the output below this one, byte for byte, and the rest is passed on too.
#[derive(Drop)]
pub struct Held<'a, O: Output> {
    output: &'a mut O,
    unsent: Unsent,
    // There was no memory.
    is_let_go: bool,
    failures: u64,
}

// Writes a text, in as many writes as it takes. Returns how many bytes of it were taken.
fn send<O: Output>(output: &mut O, text: &[u8]) -> (usize, Result<(), StreamFault>)
    ensures count { result.0 ≤ length text.now }
    ensures taken { Appends (O.taken output.old) (O.taken output.new) (take result.0 text.now) }
    ensures all { OnOk result.1 (result.0 ≡ length text.now) }
    ensures fault { OnErr result.1 (HasRisen (O.failures output.old) (O.failures output.new)) }
{
    let mut sent = 0;
    while sent < text.len() {
        match output.write(text.split_at(sent).1) {
            Ok(count) => sent += count,
            Err(fault) => return (sent, Err(fault)),
        }
    }
    (sent, Ok(()))
}

impl<'a, O: Output> Held<'a, O> {
    pub fn new(alloc: Global, output: &'a mut O) -> Held<'a, O>
        ensures taken { taken_by O.Output result ≡ append_known (O.taken output.entry.now) [] }
        ensures same { result.output.ghost_name ≡ output.entry.ghost_name }
    {
        Held {
            output,
            unsent: Unsent::new(alloc),
            is_let_go: false,
            failures: 0,
        }
    }

    /// The bytes that are held.
    pub fn text(&self) -> &[u8]
        ensures { result.now ≡ self.now.unsent }
    {
        self.unsent.bytes()
    }

    /// Writes the bytes that are held: then the output below this one has all that this one took. If a write failed, it has a front of
    /// them.
    pub fn finish(&mut self) -> Result<(), StreamFault>
        ensures kept { Keeps (taken_by O.Output self.old) (taken_by O.Output self.new) }
        ensures delivered { OnOk result (Keeps (taken_by O.Output self.old) (O.taken self.new.output.now)) }
        ensures fault { OnErr result (HasRisen (O.failures self.old.output.now) (O.failures self.new.output.now)) }
        ensures same { self.new.output.ghost_name ≡ self.old.output.ghost_name }
    {
        self.let_go()
    }

    // Writes the bytes that are held, and holds them no longer.
    fn let_go(&mut self) -> Result<(), StreamFault>
        ensures kept { Keeps (taken_by O.Output self.old) (taken_by O.Output self.new) }
        ensures none { OnOk result (self.new.unsent ≡ []) }
        ensures delivered { OnOk result (Keeps (taken_by O.Output self.old) (O.taken self.new.output.now)) }
        ensures failures { self.new.failures ≡ self.old.failures }
        ensures fault { OnErr result (HasRisen (O.failures self.old.output.now) (O.failures self.new.output.now)) }
        ensures same { self.new.output.ghost_name ≡ self.old.output.ghost_name }
    {
        let (count, sent) = send(self.output, self.unsent.bytes());
        self.unsent.skip(count);
        sent
    }

    // Holds these bytes, if there is memory. Returns whether they are held.
    fn hold(&mut self, from: &[u8]) -> bool
        ensures held { result ≡ true → Appends (taken_by O.Output self.old) (taken_by O.Output self.new) from.now }
        ensures not { result ≡ false → taken_by O.Output self.new ≡ taken_by O.Output self.old }
        ensures failures { self.new.failures ≡ self.old.failures }
    {
        if self.is_let_go {
            return false;
        }
        match self.unsent.push(from) {
            Ok(()) => true,
            Err(_) => {
                self.is_let_go = true;
                false
            }
        }
    }

    // Passes some of these bytes on, after those that are held. Returns how many were taken.
    fn pass_on(&mut self, from: &[u8]) -> Result<usize, StreamFault>
        requires some { 0 < length from.now }
        ensures count { IfOk result (λ n. (0 < n) × (n ≤ length from.now)) }
        ensures bytes { WriteAppends (taken_by O.Output self.old) (taken_by O.Output self.new) result from.now }
        ensures failures { self.new.failures ≡ self.old.failures }
    {
        self.let_go()?;
        self.output.write(from)
    }

    // Holds these bytes, or passes on some of them. Returns how many were taken.
    fn take(&mut self, from: &[u8]) -> Result<usize, StreamFault>
        requires some { 0 < length from.now }
        ensures count { IfOk result (λ n. (0 < n) × (n ≤ length from.now)) }
        ensures bytes { WriteAppends (taken_by O.Output self.old) (taken_by O.Output self.new) result from.now }
        ensures failures { self.new.failures ≡ self.old.failures }
    {
        if self.hold(from) {
            return Ok(from.len());
        }
        self.pass_on(from)
    }
}

impl<O: Output> Output for Held<'_, O> {
    ghost taken = { λ s. taken_by O.Output s };

    ghost failures = { λ s. s.failures };

    fn write(&mut self, from: &[u8]) -> Result<usize, StreamFault> {
        match self.take(from) {
            Ok(count) => Ok(count),
            Err(fault) => {
                self.failures = after_failure(self.failures);
                Err(fault)
            }
        }
    }
}
