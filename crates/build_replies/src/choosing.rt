// Which of the executables that are stored are used for a core's mapped files.
ghost use Rattle.std.specs.Prelude.{◌≡◌, IfOk, OnOk, map};
ghost use Rattle.std.specs.Option.{option_map};
ghost use Rattle.address_space.specs.SpaceWords.{attached_view};
ghost use Rattle.build_replies.specs.ByBuild as spec;
ghost use Rattle.build_replies.specs.Choosing.{choice_of};
ghost use Rattle.build_replies.specs.ChoosingWords.{chosen_view};
ghost use Rattle.build_replies.specs.Mapped.{id_view};
ghost use Rattle.build_replies.specs.TableWords.{table_rows};

use crate::ids::FrontId;
use crate::table::Table;
use address_space::Attached;
use build_ids::{build_id, build_name, debug_id, debug_name, has_name, is_debug};
use elf_view::{Elf, Want};
use std::alloc::{AllocError, Global};

/// The stored executable that belongs to a mapped file.
#[derive(Clone, Copy)]
pub enum ChosenFile<'a> {
    /// The one that is stored under the name of its build.
    ByBuild(Attached<'a>),
    /// The one under its path, which is of its build, or may be.
    ByPath(Attached<'a>),
    /// The one under its path, which is not used: it is of another build, has no build ID though the core gives one, or is a debug file.
    Other(Attached<'a>),
    /// None.
    Nothing,
}

/// Whether an image has the build ID that a core gives for a file, if it gives one.
fn has_told_id(id: Option<&[u8]>, image: &[u8]) -> bool
    ensures { result ≡ spec.has_told_id (option_map (λ id. id.now) id.entry) image.now }
{
    let Some(id) = id else {
        return true;
    };
    match build_id(image) {
        Some(own) => id == own,
        None => false,
    }
}

/// Whether the headers of an executable have no fault.
fn is_executable(image: &[u8]) -> bool
    ensures { result ≡ spec.is_executable image.now }
{
    Elf::read(image, Want::Exec).is_ok()
}

/// Whether an image may be the file that was mapped, for which a core gives that build ID, or gives none.
#[tactic(auto, unfolding(crate::specs::ByBuild::agrees))]
fn agrees(id: Option<&[u8]>, image: &[u8]) -> bool
    ensures { result ≡ spec.agrees (option_map (λ id. id.now) id.entry) image.now }
{
    is_executable(image) && !is_debug(image) && has_told_id(id, image)
}

/// The executable that is stored under the name of a build, if it is that build.
fn build_stored<'a>(stored: &Table<'a>, id: Option<&[u8]>) -> Option<Attached<'a>>
    ensures { option_map attached_view result ≡ spec.build_stored (table_rows stored.now) (option_map (λ id. id.now) id.entry) }
{
    let Some(named) = id else {
        return None;
    };
    if !has_name(named) {
        return None;
    }
    match stored.named(&build_name(named)) {
        Some(executable) if agrees(id, executable.image) => Some(executable),
        _ => None,
    }
}

/// The place of an executable that is stored under the path of the file.
fn by_its_path<'a>(id: Option<&[u8]>, executable: Option<Attached<'a>>) -> ChosenFile<'a>
    ensures { chosen_view result ≡ spec.by_its_path (option_map (λ id. id.now) id.entry) (option_map attached_view executable.entry) }
{
    match executable {
        Some(executable) if agrees(id, executable.image) => ChosenFile::ByPath(executable),
        Some(executable) if is_executable(executable.image) => ChosenFile::Other(executable),
        _ => ChosenFile::Nothing,
    }
}

impl<'a> ChosenFile<'a> {
    /// The one of these that belongs to a mapped file.
    #[tactic(auto, unfolding(crate::specs::ByBuild::chosen))]
    pub(crate) fn for_file(stored: &Table<'a>, file: &FrontId<'_>) -> ChosenFile<'a>
        ensures { chosen_view result ≡ spec.chosen (table_rows stored.now) (id_view file.now).1 (id_view file.now).0 }
    {
        match build_stored(stored, file.id()) {
            Some(executable) => ChosenFile::ByBuild(executable),
            None => by_its_path(file.id(), stored.named(file.name)),
        }
    }

    /// The executable, whether it is used or not.
    pub fn executable(self) -> Option<Attached<'a>>
        ensures { option_map attached_view result ≡ spec.executable_of (chosen_view self.entry) }
    {
        match self {
            ChosenFile::ByBuild(executable) => Some(executable),
            ChosenFile::ByPath(executable) => Some(executable),
            ChosenFile::Other(executable) => Some(executable),
            ChosenFile::Nothing => None,
        }
    }

    /// The build ID of the executable.
    pub fn id(self) -> Option<&'a [u8]>
        ensures { option_map (λ id. id.now) result ≡ spec.chosen_id (chosen_view self.entry) }
    {
        build_id(self.executable()?.image)
    }

    /// The executable, if it is used.
    pub fn used(self) -> Option<Attached<'a>>
        ensures { option_map attached_view result ≡ spec.used_executable (chosen_view self.entry) }
    {
        match self {
            ChosenFile::ByBuild(executable) => Some(executable),
            ChosenFile::ByPath(executable) => Some(executable),
            ChosenFile::Other(_) => None,
            ChosenFile::Nothing => None,
        }
    }

    /// The word for the way in which it was chosen: `build`, `path`, `other` or `none`.
    pub fn how(self) -> &'static [u8]
        ensures { result.now ≡ spec.how_word (chosen_view self.entry) }
    {
        match self {
            ChosenFile::ByBuild(_) => b"build",
            ChosenFile::ByPath(_) => b"path",
            ChosenFile::Other(_) => b"other",
            ChosenFile::Nothing => b"none",
        }
    }
}

/// Whether an image is the debug file of the build of that ID.
fn is_debug_of(id: &[u8], image: &[u8]) -> bool
    ensures { result ≡ spec.is_debug_of id.now image.now }
{
    let Some(own) = debug_id(image) else {
        return false;
    };
    id == own
}

/// The debug file that is stored under the name of a build's, if it is that build's.
fn debug_stored<'a>(stored: &Table<'a>, id: Option<&[u8]>) -> Option<Attached<'a>>
    ensures { option_map attached_view result ≡ spec.debug_stored (table_rows stored.now) (option_map (λ id. id.now) id.entry) }
{
    let Some(id) = id else {
        return None;
    };
    if !has_name(id) {
        return None;
    }
    match stored.named(&debug_name(id)) {
        Some(file) if is_debug_of(id, file.image) => Some(file),
        _ => None,
    }
}

/// The debug file of the executable that is used.
#[tactic(auto, unfolding(crate::specs::ByBuild::debug_of))]
pub(crate) fn debug_of<'a>(stored: &Table<'a>, chosen: ChosenFile<'_>) -> Option<Attached<'a>>
    ensures { option_map attached_view result ≡ spec.debug_of (table_rows stored.now) (chosen_view chosen.entry) }
{
    match chosen.used() {
        Some(executable) => debug_stored(stored, build_id(executable.image)),
        None => None,
    }
}

/// The executables that are stored for a core's mapped files, each under the name of its file: those that are used, those that are not,
/// and the debug files of those that are used.
#[derive(Drop)]
pub struct ChosenExecutables<'a> {
    /// Those that are used.
    pub used: Vec<Attached<'a>>,
    /// Those that are stored under the path and not used: the core gives a build ID for the file, and they have another, or none; or they
    /// are debug files.
    pub others: Vec<Attached<'a>>,
    /// The debug files of those that are used.
    pub debugs: Vec<Attached<'a>>,
}

impl<'a> ChosenExecutables<'a> {
    ghost use Rattle.build_replies.specs.ChoosingWords.{choice_view, no_choice, with_chosen, with_debug};

    /// None yet.
    fn new(alloc: Global) -> ChosenExecutables<'a>
        ensures { choice_view result ≡ no_choice }
    {
        ChosenExecutables {
            used: Vec::new(alloc),
            others: Vec::new(alloc),
            debugs: Vec::new(alloc),
        }
    }

    /// Puts a debug file where it belongs, under the name of the mapped file. The only error is that there is no memory.
    fn add_debug(&mut self, path: &'a [u8], debug: Option<Attached<'a>>) -> Result<(), AllocError>
        ensures { OnOk result (choice_view self.new ≡ with_debug path.entry.now (option_map attached_view debug.entry) (choice_view self.old)) }
    {
        if let Some(Attached { image, .. }) = debug {
            self.debugs.push(Attached { path, image })?;
        }
        Ok(())
    }

    /// Adds the choice for a mapped file to the list where it belongs,
    /// under the file's name. The only error is that there is no memory.
    fn add(&mut self, path: &'a [u8], chosen: ChosenFile<'a>) -> Result<(), AllocError>
        ensures { OnOk result (choice_view self.new ≡ with_chosen path.entry.now (chosen_view chosen.entry) (choice_view self.old)) }
    {
        match chosen {
            ChosenFile::ByBuild(Attached { image, .. }) => self
                .used
                .push(Attached { path, image })?,
            ChosenFile::ByPath(Attached { image, .. }) => self.used.push(Attached { path, image })?,
            ChosenFile::Other(Attached { image, .. }) => self
                .others
                .push(Attached { path, image })?,
            ChosenFile::Nothing => {}
        }
        Ok(())
    }

    /// The choice for these mapped files among the executables that
    /// are stored. The only error is that there is no memory.
    pub fn of(
        alloc: Global,
        files: &[FrontId<'a>],
        stored: &[Attached<'a>],
    ) -> Result<ChosenExecutables<'a>, AllocError>
        ensures { IfOk result (λ chosen. choice_view chosen ≡ choice_of (map id_view files.now) (map attached_view stored.now)) }
    {
        let table = Table::of(alloc, stored)?;
        let mut chosen = ChosenExecutables::new(alloc);
        for file in files {
            let executable = ChosenFile::for_file(&table, file);
            chosen.add(file.name, executable)?;
            chosen.add_debug(file.name, debug_of(&table, executable))?;
        }
        Ok(chosen)
    }
}
