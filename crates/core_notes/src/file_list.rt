// NT_FILE: the mapped files.
ghost use Rattle.std.specs.Prelude.{◌≡◌, ◌+◌, ◌-◌, ◌*◌, ◌^◌, ◌<◌, ◌≤◌, length, IsTrue, OnOk};
ghost use Rattle.std.specs.List.{list_all, range_with_len, after_first};
ghost use Rattle.std.specs.Result.{result_err};
ghost use Rattle.memchr.specs.Find.{is_byte};
ghost use Rattle.elf_view.specs.Field.{text_before_nul};
ghost use Rattle.core_notes.specs.FileList as spec;

use crate::faults::NoteField;
use elf_view::{part, text_before_nul, u64_at};
use memchr::memchr_iter;

/// A mapped file of a process.
#[derive(Clone, Copy, Debug)]
pub struct FileMap<'a> {
    /// The first address.
    pub start: u64,
    /// The address after the last.
    pub past: u64,
    /// The place of the first byte in the file, in bytes.
    pub offset: u64,
    /// The file's name.
    pub name: &'a [u8],
    /// It does not end before it starts.
    pub ghost ordered: { start ≤ past },
    /// Its last byte's place in the file is a u64.
    pub ghost fits: { offset + (past - start) < 2 ^ 64 },
}

/// An entry of NT_FILE without its name.
#[derive(Clone, Copy, Debug)]
pub struct FileEntry {
    /// Its number among the entries.
    pub number: u64,
    /// The first address.
    pub start: u64,
    /// The address after the last.
    pub past: u64,
    /// The place of the first byte in the file, in bytes.
    pub offset: u64,
    /// It does not end before it starts.
    pub ghost ordered: { start ≤ past },
    /// Its last byte's place in the file is a u64.
    pub ghost fits: { offset + (past - start) < 2 ^ 64 },
}

/// The mapped files of a process.
#[derive(Clone, Copy, Debug)]
pub struct Files<'a> {
    desc: &'a [u8],
    /// The entries are there.
    pub ghost fits: { spec.names_at desc.now ≤ length desc.now },
    /// No entry exceeds the highest u64.
    pub ghost entries: { IsTrue (list_all (spec.is_entry_sound desc.now) (range_with_len 0 (spec.file_count desc.now))) },
}

/// Mapped files of a process, in order.
#[derive(Clone, Copy, Debug)]
pub struct FileMaps<'a> {
    desc: &'a [u8],
    index: usize,
    left: usize,
    names: &'a [u8],
    ghost fits: { 16 + 24 * (index + left) ≤ length desc.now },
    ghost sound: { IsTrue (list_all (spec.is_entry_sound desc.now) (range_with_len index left)) },
}

/// The bytes before the first NUL, and those after it.
fn split_name(names: &[u8]) -> (&[u8], &[u8])
    ensures name { result.0.now ≡ text_before_nul names.now }
    ensures others { result.1.now ≡ after_first (is_byte 0) names.now }
{
    let name = text_before_nul(names);
    let others = part(names, name.len() as u64 + 1, names.len() as u64);
    (name, others)
}

/// Whether entry `i` does not end before it starts, and its last byte's place in the file is a u64.
fn is_entry_sound(desc: &[u8], i: usize) -> bool
    requires { 40 + 24 * i ≤ length desc.now }
    ensures { result ≡ spec.is_entry_sound desc.now i }
{
    let start = u64_at(desc, 16 + 24 * i);
    let end = u64_at(desc, 24 + 24 * i);
    let first = u64_at(desc, 32 + 24 * i).checked_mul(u64_at(desc, 8));
    match first {
        Some(first) if start <= end => first.checked_add(end - start).is_some(),
        _ => false,
    }
}

/// Whether the first `count` entries are sound.
fn are_entries_sound(desc: &[u8], count: usize) -> bool
    requires { 16 + 24 * count ≤ length desc.now }
    ensures { result ≡ list_all (spec.is_entry_sound desc.now) (range_with_len 0 count) }
{
    for i in 0..count {
        if !is_entry_sound(desc, i) {
            return false;
        }
    }
    true
}

/// The checks of an NT_FILE.
#[tactic(auto, unfolding(crate::specs::FileList::files_fault))]
pub(crate) fn check_files(desc: &[u8]) -> Result<(), NoteField>
    ensures fault { result_err result ≡ spec.files_fault desc.now }
    ensures fits { OnOk result (spec.names_at desc.now ≤ length desc.now) }
    ensures entries { OnOk result
        (IsTrue (list_all (spec.is_entry_sound desc.now) (range_with_len 0 (spec.file_count desc.now)))) }
{
    if desc.len() < 16 {
        return Err(NoteField::FileCount);
    }
    let count = u64_at(desc, 0);
    if (desc.len() as u64 - 16) / 24 < count {
        return Err(NoteField::FileCount);
    }
    let count = count as usize;
    if !are_entries_sound(desc, count) {
        return Err(NoteField::FileOffset);
    }
    if memchr_iter(0, &desc[16 + 24 * count..]).count() < count {
        return Err(NoteField::FileNames);
    }
    Ok(())
}

impl FileEntry {
    ghost use Rattle.std.specs.Prelude.{◌&&◌, nat_le, nat_lt};

    /// Whether it maps an address.
    fn maps(&self, address: u64) -> bool
        ensures { result ≡ (nat_le self.now.start address && nat_lt address self.now.past) }
    {
        self.start <= address && address < self.past
    }
}

impl<'a> Files<'a> {
    ghost use Rattle.std.specs.Option.{option_map};
    ghost use Rattle.core_notes.specs.FileWords.{entry_view, files_bytes, files_left};

    pub(crate) fn new(desc: &'a [u8]) -> Files<'a>
        requires fits { spec.names_at desc.now ≤ length desc.now }
        requires entries { IsTrue (list_all (spec.is_entry_sound desc.now) (range_with_len 0 (spec.file_count desc.now))) }
        ensures { files_bytes result ≡ desc.now }
    {
        Files { desc }
    }

    /// The entry of that number.
    fn entry(&self, i: usize) -> FileEntry
        requires { i < spec.file_count (files_bytes self.now) }
        ensures { entry_view result ≡ spec.entry_of (files_bytes self.now) i }
    {
        FileEntry {
            number: i as u64,
            start: u64_at(self.desc, 16 + 24 * i),
            past: u64_at(self.desc, 24 + 24 * i),
            offset: u64_at(self.desc, 32 + 24 * i) * u64_at(self.desc, 8),
        }
    }

    /// The first entry that maps an address, if there is one. It looks at no name: use `maps` for that.
    pub fn covering(&self, address: u64) -> Option<FileEntry>
        ensures { option_map entry_view result
            ≡ option_map spec.unnamed (spec.first_mapping address (spec.files_of (files_bytes self.now))) }
    {
        let count = u64_at(self.desc, 0) as usize;
        for i in 0..count {
            let entry = self.entry(i);
            if entry.maps(address) {
                return Some(entry);
            }
        }
        None
    }

    /// The mapped files, in order.
    pub fn maps(&self) -> FileMaps<'a>
        ensures { files_left result ≡ spec.files_of (files_bytes self.now) }
    {
        let count = u64_at(self.desc, 0) as usize;
        FileMaps {
            desc: self.desc,
            index: 0,
            left: count,
            names: &self.desc[16 + 24 * count..],
        }
    }
}

impl<'a> Iterator for FileMaps<'a> {
    ghost use Rattle.std.specs.Iterator.{YieldsFirstBy, item_count};
    ghost use Rattle.core_notes.specs.FileWords.{file_view, files_left};

    type Item = FileMap<'a>;

    ghost next_gives = { YieldsFirstBy file_view files_left };

    ghost remaining = { item_count files_left };

    fn next(&mut self) -> Option<FileMap<'a>> {
        if self.left == 0 {
            return None;
        }
        let i = self.index;
        let (name, names) = split_name(self.names);
        let map = FileMap {
            start: u64_at(self.desc, 16 + 24 * i),
            past: u64_at(self.desc, 24 + 24 * i),
            offset: u64_at(self.desc, 32 + 24 * i) * u64_at(self.desc, 8),
            name,
        };
        self.left -= 1;
        self.index += 1;
        self.names = names;
        Some(map)
    }
}
