// The function that an address belongs to.
ghost use Rattle.std.specs.Prelude.{◌≡◌, IfOk, None, is_ok};
ghost use Rattle.std.specs.Option.{option_and_then, option_map, option_or};
ghost use Rattle.script_streams.specs.Replies.{PrintsReply, PrintsText, no_reply, reply_of, printing};
ghost use Rattle.symbols.specs.Names.{symbol_named};
ghost use Rattle.symbols.specs.SymbolWords.{functions_in, strings_in, symbol_view};
ghost use Rattle.memory_replies.specs.Answers.{AnswersWith};
ghost use Rattle.memory_replies.specs.declared.outcome.Outcome.TheVariants.{OutOfMemory};
ghost use Rattle.memory_replies.specs.Naming.{debug_symbol};
ghost use Rattle.memory_replies.specs.Symbol as spec;
ghost use Rattle.memory_replies.specs.SymbolDebug.{symbol_with_debug};
ghost use Rattle.image_replies.specs.Reasons.{indexed};

use crate::debug_file::debug_functions;
use crate::outcome::{Outcome, outcome_by};
use crate::words::print_hex_word;
use elf_view::{Elf, Want};
use image_replies::print_elf_fault;
use script_streams::{Output, Reply, print_no, print_ok};
use std::alloc::{AllocError, Global};
use symbols::{Symbol, SymbolError, SymbolFault, Symbols};

/// Prints `no`, the name of a field and a number.
fn print_indexed<O: Output>(reply: &mut Reply<'_, O>, name: &[u8], index: u64)
    ensures { PrintsText (printing O.Output reply.old reply.new) (no_reply (indexed name.now index)) }
{
    reply.print(b"no ");
    reply.print(name);
    reply.print(b" ");
    reply.print_decimal(u128::from(index));
    reply.print(b"\n");
}

/// Prints the fault of a symbol table: `no FIELD` for a field of the file header, else `no FIELD INDEX`.
fn print_symbol_fault<O: Output>(reply: &mut Reply<'_, O>, fault: SymbolFault)
    ensures { PrintsText (printing O.Output reply.old reply.new) (no_reply (spec.symbol_reason fault)) }
{
    let name = fault.field.name().as_bytes();
    if fault.field.has_index() {
        print_indexed(reply, name, fault.index);
    } else {
        print_no(reply, name);
    }
}

/// Prints the line of a function.
fn print_function<O: Output>(reply: &mut Reply<'_, O>, symbol: Symbol<'_>)
    ensures { PrintsText (printing O.Output reply.old reply.new)
        (spec.symbol_line (symbol_view symbol.entry)) }
{
    reply.print_text(symbol.name);
    reply.print(b" ");
    print_hex_word(reply, symbol.value);
    reply.print_hexadecimal(u128::from(symbol.size));
    reply.print(b"\n");
}

/// Prints the function that was found, if there is one. Returns whether there is.
fn print_found<O: Output>(reply: &mut Reply<'_, O>, found: Option<Symbol<'_>>) -> bool
    ensures states { PrintsText (printing O.Output reply.old reply.new) (reply_of (spec.found_answer (option_map symbol_view found.entry))) }
    ensures done { result ≡ is_ok (spec.found_answer (option_map symbol_view found.entry)) }
{
    match found {
        Some(symbol) => {
            print_function(reply, symbol);
            print_ok(reply);
            true
        }
        None => {
            print_no(reply, b"NoSymbol");
            false
        }
    }
}

/// The function of an executable at an address, or else that of its debug file, if there is one. The error is that there is no
/// memory for the functions of the debug file.
fn symbol_at<'a>(
    alloc: Global,
    symbols: &Symbols<'a>,
    debug: Option<&'a [u8]>,
    address: u64,
) -> Result<Option<Symbol<'a>>, AllocError>
    ensures { IfOk result (λ found. option_map symbol_view found
        ≡ option_or (symbol_named (strings_in symbols.now) (functions_in symbols.now) address) (option_and_then (λ d. debug_symbol address d.now) debug.entry)) }
{
    if let Some(symbol) = symbols.lookup(address) {
        return Ok(Some(symbol));
    }
    let Some(image) = debug else {
        return Ok(None);
    };
    match debug_functions(alloc, image)? {
        Some(functions) => Ok(functions.at(address)),
        None => Ok(None),
    }
}

/// Prints the function of an executable that an address belongs to: `NAME VALUE SIZE`, or `no NoSymbol`. If no function of the
/// executable has the address, its debug file is searched, if there is one. The first fault of the executable's headers, or else of
/// its symbol table, is answered instead. If there is no memory for the functions, and neither has a fault, the reply is `no
/// OutOfMemory`. Returns the outcome.
pub fn print_symbol_with_debug<O: Output>(
    alloc: Global,
    reply: &mut Reply<'_, O>,
    image: &[u8],
    debug: Option<&[u8]>,
    address: u64,
) -> Outcome
    ensures { PrintsReply (printing O.Output reply.old reply.new)
        (λ text. AnswersWith result (symbol_with_debug image.now (option_map (λ d. d.now) debug.entry) address) text × (result ≡ OutOfMemory → spec.executable_fault image.now ≡ None)) }
{
    let elf = match Elf::read(image, Want::Exec) {
        Ok(elf) => elf,
        Err(fault) => {
            print_elf_fault(reply, fault);
            return Outcome::Refused;
        }
    };
    match Symbols::read(alloc, &elf) {
        Ok(symbols) => match symbol_at(alloc, &symbols, debug, address) {
            Ok(found) => {
                let done = print_found(reply, found);
                outcome_by(done)
            }
            Err(_) => {
                print_no(reply, b"OutOfMemory");
                Outcome::OutOfMemory
            }
        },
        Err(SymbolError::Fault(fault)) => {
            print_symbol_fault(reply, fault);
            Outcome::Refused
        }
        Err(SymbolError::OutOfMemory) => {
            print_no(reply, b"OutOfMemory");
            Outcome::OutOfMemory
        }
    }
}

/// Prints the function of an executable that an address belongs to, by the executable alone. Otherwise it is like
/// `print_symbol_with_debug`.
pub fn print_symbol<O: Output>(
    alloc: Global,
    reply: &mut Reply<'_, O>,
    image: &[u8],
    address: u64,
) -> Outcome
    ensures { PrintsReply (printing O.Output reply.old reply.new)
        (λ text. AnswersWith result (spec.symbol_answer image.now address) text × (result ≡ OutOfMemory → spec.executable_fault image.now ≡ None)) }
{
    print_symbol_with_debug(alloc, reply, image, None, address)
}
