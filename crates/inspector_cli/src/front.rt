// The bytes of a file: all, or its first ones, if it is cut; those that were stated.
ghost use Rattle.std.specs.Prelude.{◌≡◌, ◌+◌, ◌<◌, ◌≤◌, ◌++◌, ℕ, true, false, List, [], Ok, Some, IfOk};
ghost use Rattle.intake.specs.Parts.{Parts, state_of};
ghost use Rattle.inspector_cli.specs.Fitting.{CutsBehind, CutsWell, Going, IsServed, IsUnder, IsWalled, IsWithin, MeetsLength, ServesOn, TakesWhile};
ghost use Rattle.inspector_cli.specs.Reply.{Ends, Takes};
ghost use Rattle.script_streams.specs.Replies.{PrintsReply, PrintsText, printing};
ghost use Rattle.inspector_cli.specs.Stated.{HashesOn};
ghost use Rattle.inspector_cli.specs.Storing.{LooksPast, TakesAll, TakesNext, cut_line, cut_text};

use crate::fitting::{lacks_block, may_free};
use crate::session::Order;
use crate::stated::{Difference, Stated, end_at, hasher_for};
use crate::store::{MOST_BYTES, MOST_READS, TakeStop, take_next};
use archive_replies::print_stored;
use disk_model::Disk;
use intake::Archive;
use script_streams::{Input, Output, Reply};
use sha2::Sha256;

// Makes the stream in slot 0 a case, of a file that was cut after these bytes. Returns its number, if it is stored: then the cut is printed
// before that.
pub(crate) fn answer_front<O: Output, D: Disk>(
    kept: u64,
    reply: &mut Reply<'_, O>,
    archive: &mut Archive<D>,
) -> Option<u32>
    ensures { PrintsReply (printing O.Output reply.old reply.new) (λ text. (rest : List ℕ) × (text ≡ cut_text (Some kept) result ++ rest) × Ends D.Disk archive.old 0 rest archive.new result) }
{
    let outcome = archive.finish(0);
    match outcome {
        Ok(seq) => {
            print_cut(reply, kept);
            print_stored(reply, outcome);
            Some(seq)
        }
        Err(_) => {
            print_stored(reply, outcome);
            None
        }
    }
}

// Prints how many bytes of a file are kept.
fn print_cut<O: Output>(reply: &mut Reply<'_, O>, kept: u64)
    ensures { PrintsText (printing O.Output reply.old reply.new) (cut_line kept) }
{
    reply.print(b"cut ");
    reply.print_decimal(u128::from(kept));
    reply.print(b"\n");
}

// Takes the bytes of a file into the stream in slot 0, for which cases go, if they may. If it may be cut, it is cut if no more may be
// taken, or no more find room. If its length or its digest is stated, it must have that, or be cut before.
pub(crate) fn take_file<I: Input, O: Output, D: Disk>(
    fit: bool,
    order: Order,
    cut: Option<u64>,
    stated: Stated,
    file: &mut I,
    reply: &mut Reply<'_, O>,
    archive: &mut Archive<D>,
) -> Result<(), TakeStop>
    requires takes { Takes D.Disk archive.old 0 [] (Ok tt) archive.old }
    requires some { IsUnder cut 0 }
    ensures all { TakesAll D.Disk order fit stated (I.remaining file.old) (I.remaining file.new) (I.failures file.old) (I.failures file.new)
        archive.old (printing O.Output reply.old reply.new) archive.new result }
    ensures served { fit ≡ true → IsServed (state_of archive.old) → ServesOn order result (state_of archive.new) }
    ensures well { CutsWell fit cut result (state_of archive.new) }
{
    let mut taken: u64 = 0;
    let mut hasher = hasher_for(stated.digest);
    for _ in 0..MOST_READS {
        let count = take_step(
            fit,
            order,
            cut,
            stated.length,
            taken,
            &mut hasher,
            file,
            reply,
            archive,
        )?;
        if count == 0 {
            return end_at(stated, taken, hasher);
        }
        taken += count as u64;
    }
    Err(TakeStop::File)
}

// Takes the next bytes of a file into the stream in slot 0, which has taken so many; or finds that it is to be cut, or is longer than was
// stated. Returns how many there were.
fn take_step<I: Input, O: Output, D: Disk>(
    fit: bool,
    order: Order,
    cut: Option<u64>,
    length: Option<u64>,
    taken: u64,
    hasher: &mut Option<Sha256>,
    file: &mut I,
    reply: &mut Reply<'_, O>,
    archive: &mut Archive<D>,
) -> Result<usize, TakeStop>
    requires some { IsUnder cut 0 }
    requires within { IsWithin cut taken }
    requires stated { IsWithin length taken }
    ensures next { (begun : Parts D) (so_far : List ℕ) (gone : List (Going D))
        → TakesWhile D.Disk order begun so_far gone (Ok tt) archive.old
        → TakesNext D.Disk order (I.remaining file.old) (I.remaining file.new) (I.failures file.old) (I.failures file.new)
        begun so_far gone fit (HashesOn hasher.old hasher.new) (printing O.Output reply.old reply.new) archive.new result }
    ensures served { fit ≡ true → IsServed (state_of archive.old) → ServesOn order result (state_of archive.new) }
    ensures behind { CutsBehind fit cut taken result (state_of archive.new) }
    ensures meets { MeetsLength length taken result }
    ensures within { IfOk result (λ n. IsWithin cut (taken + n)) }
    ensures stated { IfOk result (λ n. IsWithin length (taken + n)) }
    ensures few { IfOk result (λ n. n ≤ 4096) }
{
    if is_reached(length, taken) {
        return look_past(TakeStop::Differs(Difference::Long), file);
    }
    if is_reached(cut, taken) || cut.is_some() && is_walled(fit, taken, archive) {
        return look_past(TakeStop::Cut(taken), file);
    }
    let size = left_of(cut, taken).min(left_of(length, taken));
    take_next(fit, order, size, hasher, file, reply, archive)
}

// Whether so many bytes are those of a bound, if there is one.
fn is_reached(bound: Option<u64>, taken: u64) -> bool
    requires { IsWithin bound taken }
    ensures yes { result ≡ true → bound ≡ Some taken }
    ensures no { result ≡ false → IsUnder bound taken }
{
    match bound {
        Some(most) => taken == most,
        None => false,
    }
}

// How many bytes may be asked for at a time, if so many are taken, and no more than a bound may be.
fn left_of(bound: Option<u64>, taken: u64) -> usize
    requires { IsUnder bound taken }
    ensures some { 0 < result }
    ensures few { result ≤ 4096 }
    ensures within { (n : ℕ) → n ≤ result → IsWithin bound (taken + n) }
{
    match bound {
        Some(most) => (most - taken).min(MOST_BYTES as u64) as usize,
        None => MOST_BYTES,
    }
}

// Whether so many bytes, some at least, fill whole blocks, and no data block is free for more; nor becomes free, if cases may go.
fn is_walled<D: Disk>(fit: bool, taken: u64, archive: &Archive<D>) -> bool
    ensures { result ≡ true → IsWalled fit taken (state_of archive.now) }
{
    taken > 0 && taken % 4096 == 0 && lacks_block(archive) && !(fit && may_free(archive))
}

// Looks whether a file goes on behind the bytes that were taken, which stops it for this reason.
fn look_past<I: Input>(stop: TakeStop, file: &mut I) -> Result<usize, TakeStop>
    ensures { LooksPast (I.remaining file.old) (I.remaining file.new) (I.failures file.old) (I.failures file.new) stop result }
{
    let mut next = [0u8; 1];
    let Ok(count) = file.read(&mut next) else {
        return Err(TakeStop::File);
    };
    if count == 0 {
        return Ok(0);
    }
    Err(stop)
}
