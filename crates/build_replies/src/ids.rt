// The build IDs of the fronts of a core's mapped files.
ghost use Rattle.std.specs.Prelude.{◌≡◌, IfOk, map};
ghost use Rattle.std.specs.Option.{option_map};
ghost use Rattle.image_replies.specs.CoreWords.{core_bytes};
ghost use Rattle.build_replies.specs.Builds.{told_of, told_or_none};
ghost use Rattle.build_replies.specs.Mapped.{AreIdsOf, id_view, told_view};

use crate::mapped::MappedFiles;
use build_ids::build_id;
use elf_view::part;
use image_replies::CoreImage;
use std::alloc::{AllocError, Global};

/// The build ID of the front of a mapped file.
#[derive(Drop)]
pub struct FrontId<'a> {
    /// The file's name.
    pub name: &'a [u8],
    pub(crate) id: Option<Vec<u8>>,
}

/// The same bytes. The error is that there is no memory.
fn owned(alloc: Global, id: Option<&[u8]>) -> Result<Option<Vec<u8>>, AllocError>
    ensures { IfOk result (λ copy. option_map (λ v. v.items) copy ≡ option_map (λ id. id.now) id.entry) }
{
    match id {
        Some(id) => Ok(Some(id.to_vec(alloc)?)),
        None => Ok(None),
    }
}

impl<'a> FrontId<'a> {
    ghost use Rattle.std.specs.Prelude.{List, ℕ};

    /// The build ID of the front of the file of that name, or `None`
    /// if it has none. The only error is that there is no memory.
    pub fn new(alloc: Global, name: &'a [u8], id: Option<&[u8]>) -> Result<FrontId<'a>, AllocError>
        ensures { IfOk result (λ front. id_view front ≡ (name.entry.now, option_map (λ id. id.now) id.entry)) }
    {
        let id = owned(alloc, id)?;
        Ok(FrontId { name, id })
    }

    /// The build ID, lent.
    pub fn id(&self) -> Option<&[u8]>
        ensures { option_map (λ id. id.now) result ≡ option_map (λ v. v.items) self.now.id }
    {
        match &self.id {
            Some(id) => Some(id.as_slice()),
            None => None,
        }
    }
}

/// Those of a core's mapped files, by all of its image.
fn all_ids<'a>(
    alloc: Global,
    image: &[u8],
    mapped: &MappedFiles<'a>,
) -> Result<Vec<FrontId<'a>>, AllocError>
    ensures { IfOk result (λ ids. AreIdsOf image.now mapped.now ids.items) }
{
    let mut ids = Vec::new(alloc);
    for i in 0..mapped.count() {
        let front = mapped.front(i);
        let id = build_id(part(image, front.start, front.count));
        ids.push(FrontId::new(alloc, front.path, id)?)?;
    }
    Ok(ids)
}

/// The mapped files of a core of which all bytes are at hand, each with the build ID of its front. `None` is a core without NT_FILE. The
/// error is that there is no memory.
pub fn told_ids<'a>(
    alloc: Global,
    core: &CoreImage<'a>,
) -> Result<Option<Vec<FrontId<'a>>>, AllocError>
    ensures { IfOk result (λ ids. told_view ids ≡ told_of (core_bytes core.now)) }
{
    let image = core.elf().image();
    match MappedFiles::of(alloc, core, image.len() as u64)? {
        Some(mapped) => Ok(Some(all_ids(alloc, image, &mapped)?)),
        None => Ok(None),
    }
}

/// The mapped files of a core; none, if it has no NT_FILE.
pub fn listed<'t, 'a>(told: &'t Option<Vec<FrontId<'a>>>) -> &'t [FrontId<'a>]
    ensures { map id_view result.now ≡ told_or_none (told_view told.now) }
{
    match told {
        Some(files) => files,
        None => &[],
    }
}
