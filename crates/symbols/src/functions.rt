// The functions of a symbol table, in its order.
ghost use Rattle.std.specs.Prelude.{◌≡◌, ◌-◌, ◌*◌, ◌+◌, ◌≤◌, ◌<◌, find, length, IfSome};
ghost use Rattle.std.specs.List.{range_with_len};
ghost use Rattle.symbols.specs.Entry as spec;

use elf_view::{u16_at, u32_at, u64_at};

/// The size of an entry.
pub(crate) const ENTRY: usize = 24;

/// The type of a symbol that is a function.
const STT_FUNC: u8 = 2;

// The bindings of a symbol.
const STB_LOCAL: u8 = 0;

const STB_GLOBAL: u8 = 1;

const STB_WEAK: u8 = 2;

/// A function of a symbol table.
#[derive(Clone, Copy, Debug)]
pub struct Function {
    /// Its number in the table.
    pub index: u64,
    /// st_name: where its name begins in the string table.
    pub name: u32,
    /// 0 for STB_GLOBAL, 1 for STB_WEAK, 2 for STB_LOCAL, 3 for other bindings.
    pub rank: u8,
    /// st_value: its address.
    pub value: u64,
    /// st_size: how many bytes it has.
    pub size: u64,
}

/// The functions of a symbol table, in its order.
#[derive(Clone, Copy)]
pub(crate) struct Functions<'a> {
    entries: &'a [u8],
    index: usize,
    end: usize,
    ghost fits: { 24 * end ≤ length entries.now },
}

/// st_info of entry `i`.
#[tactic(auto, using(crate::proofs::Entries::one_byte))]
fn info_at(entries: &[u8], i: usize) -> u8
    requires { 24 * i + 24 ≤ length entries.now }
    ensures { result ≡ spec.st_info entries.now i }
{
    entries[ENTRY * i + 4]
}

/// Whether entry `i` is a function that is defined.
#[tactic(auto, unfolding(crate::specs::Entry::is_function))]
fn is_function(entries: &[u8], i: usize) -> bool
    requires { 24 * i + 24 ≤ length entries.now }
    ensures { result ≡ spec.is_function entries.now i }
{
    info_at(entries, i) % 16 == STT_FUNC && u16_at(entries, ENTRY * i + 6) != 0
}

/// The rank of a binding.
fn rank_of(binding: u8) -> u8
    ensures { result ≡ spec.rank_of binding }
{
    match binding {
        STB_GLOBAL => 0,
        STB_WEAK => 1,
        STB_LOCAL => 2,
        _ => 3,
    }
}

/// Entry `i`, as a function.
#[tactic(auto, unfolding(crate::specs::Entry::function_at))]
fn function_at(entries: &[u8], i: usize) -> Function
    requires { 24 * i + 24 ≤ length entries.now }
    ensures { result ≡ spec.function_at entries.now i }
{
    let at = ENTRY * i;
    Function {
        index: i as u64,
        name: u32_at(entries, at),
        rank: rank_of(info_at(entries, i) / 16),
        value: u64_at(entries, at + 8),
        size: u64_at(entries, at + 16),
    }
}

/// The first function among the entries from number `index` on, up to number `end`.
fn first_function(entries: &[u8], index: usize, end: usize) -> Option<usize>
    requires { 24 * end ≤ length entries.now }
    ensures first { result ≡ find (spec.is_function entries.now) (range_with_len index (end - index)) }
    ensures within { IfSome result (λ i. (index ≤ i) × (i < end)) }
{
    for i in index..end {
        if is_function(entries, i) {
            return Some(i);
        }
    }
    None
}

impl<'a> Functions<'a> {
    ghost use Rattle.symbols.specs.FunctionWords.{functions_left};

    /// The functions of a table.
    pub(crate) fn new(entries: &'a [u8]) -> Functions<'a>
        ensures { functions_left result ≡ spec.functions_of entries.now }
    {
        Functions {
            entries,
            index: 0,
            end: entries.len() / ENTRY,
        }
    }
}

impl<'a> Iterator for Functions<'a> {
    ghost use Rattle.std.specs.Iterator.{YieldsFirst, item_count};
    ghost use Rattle.symbols.specs.FunctionWords.{functions_left};

    type Item = Function;

    ghost next_gives = { YieldsFirst functions_left };

    ghost remaining = { item_count functions_left };

    fn next(&mut self) -> Option<Function> {
        let Some(i) = first_function(self.entries, self.index, self.end) else {
            self.index = self.end;
            return None;
        };
        let function = function_at(self.entries, i);
        self.index = i + 1;
        Some(function)
    }
}
