// The places of the fronts of its mapped files in a core's image.
ghost use Rattle.std.specs.Prelude.{◌≡◌, ◌++◌, ◌∷◌, [], ℕ, List, IfOk, IfSome, Some, OnOk, find, map, slice_get};
ghost use Rattle.std.specs.Option.{option_map};
ghost use Rattle.elf_view.specs.Field.{part};
ghost use Rattle.address_space.specs.PathWords.{AreNumbered};
ghost use Rattle.address_space.specs.Source.{is_named};
ghost use Rattle.address_space.specs.SpaceWords.{core_of, space_of};
ghost use Rattle.address_space.specs.StretchWords.{IsWithin, shown_in};
ghost use Rattle.address_space.specs.Whole.{IsFrontOf, space_in};
ghost use Rattle.build_ids.specs.BuildId.{build_id_of};
ghost use Rattle.core_notes.specs.FileList.{files_of};
ghost use Rattle.core_notes.specs.FileWords.{file_view, files_bytes};
ghost use Rattle.build_replies.specs.Builds as spec;
ghost use Rattle.build_replies.specs.declared.places.FrontPlace.{FrontPlace};
ghost use Rattle.build_replies.specs.PlaceWords.{EndsWithin, front_by, front_in};

use address_space::{AddressSpace, ByPath, Stretch, StretchKind};
use core_notes::{FileMap, Files};
use std::alloc::{AllocError, Global};

/// The place of the front of a mapped file, as far as the core has it.
#[derive(Clone, Copy)]
pub struct FrontPlace<'a> {
    /// The file's name.
    pub path: &'a [u8],
    /// The place in the core's image of the first byte.
    pub start: u64,
    /// How many bytes there are.
    pub count: u64,
}

/// The places of fronts in a core's image, in their order, and a table of the files' names.
#[derive(Drop)]
pub struct FrontPlaces<'a> {
    pub(crate) list: Vec<FrontPlace<'a>>,
    pub(crate) paths: ByPath<'a>,
    /// The size of the image.
    pub(crate) size: u64,
    /// Its numbers are theirs, whatever the image has there.
    ghost numbered: { (image : List ℕ) → AreNumbered paths (map (front_in image) list.items) },
    /// They lie in the image.
    ghost within: { (k : ℕ) (place : FrontPlace) → slice_get list.items k ≡ Some place → EndsWithin size place },
}

/// The place of the front of a file of that name in the core's image, if the core has these bytes.
fn place_of<'a>(path: &'a [u8], stretch: &Stretch<'_>) -> FrontPlace<'a>
    ensures front { (image : List ℕ) → front_in image result ≡ front_by path.now (spec.bytes_of (shown_in image stretch.now.length stretch.now.kind)) }
    ensures within { (size : ℕ) → IsWithin 0 size stretch.now.length stretch.now.kind → EndsWithin size result }
{
    match stretch.kind {
        StretchKind::Core { offset } => FrontPlace {
            path,
            start: offset,
            count: stretch.length,
        },
        StretchKind::FromFile(_) => no_front(path),
        StretchKind::NotDumped(_) => no_front(path),
        StretchKind::Cut => no_front(path),
        StretchKind::Unmapped => no_front(path),
    }
}

/// The place of nothing.
fn no_front(path: &[u8]) -> FrontPlace<'_>
    ensures path { result.path ≡ path.entry }
    ensures none { (image : List ℕ) → part image result.start result.count ≡ [] }
    ensures within { (size : ℕ) → EndsWithin size result }
{
    FrontPlace {
        path,
        start: 0,
        count: 0,
    }
}

/// The place of the front of a file that is mapped so, as far as the core has it. Its image has `size` bytes.
fn front_of<'a>(space: &AddressSpace<'a>, size: u64, map: FileMap<'a>) -> FrontPlace<'a>
    ensures front { (image : List ℕ) → IsFrontOf (core_of space.now) size image
        → front_in image result ≡ spec.front_of (space_in image (space_of space.now)) (file_view map.entry) }
    ensures within { EndsWithin size result }
{
    let mut stretches = space.stretches(size, map.start, map.past - map.start);
    match stretches.next() {
        Some(stretch) => place_of(map.name, &stretch),
        None => no_front(map.name),
    }
}

impl<'a> FrontPlaces<'a> {
    ghost use Rattle.build_replies.specs.PlacesWords.{fronts_in};

    /// None yet, of an image of `size` bytes.
    fn new(alloc: Global, size: u64) -> FrontPlaces<'a>
        ensures none { (image : List ℕ) → fronts_in image result ≡ [] }
        ensures size { result.size ≡ size }
    {
        FrontPlaces {
            list: Vec::new(alloc),
            paths: ByPath::new(alloc),
            size,
        }
    }

    /// Puts one after the others. The error is that there is no memory.
    fn push(&mut self, place: FrontPlace<'a>) -> Result<(), AllocError>
        requires { EndsWithin self.old.size place }
        ensures more { OnOk result ((image : List ℕ) → fronts_in image self.new ≡ fronts_in image self.old ++ front_in image place.entry ∷ []) }
        ensures size { self.new.size ≡ self.old.size }
    {
        self.list.reserve(1)?;
        self.paths.add(place.path, self.list.len())?;
        self.list.push(place).unwrap();
        Ok(())
    }

    /// Those of a core's mapped files, in the order of NT_FILE. Its image has `size` bytes. The error is that there is no memory.
    pub(crate) fn of(
        alloc: Global,
        space: &AddressSpace<'a>,
        size: u64,
        files: &Files<'a>,
    ) -> Result<FrontPlaces<'a>, AllocError>
        ensures fronts { IfOk result (λ places. (image : List ℕ) → IsFrontOf (core_of space.now) size image
            → fronts_in image places ≡ spec.fronts_of (space_in image (space_of space.now)) (files_of (files_bytes files.now))) }
        ensures size { IfOk result (λ places. places.size ≡ size) }
    {
        let mut places = FrontPlaces::new(alloc, size);
        for map in files.maps() {
            if map.offset == 0 {
                places.push(front_of(space, size, map))?;
            }
        }
        Ok(places)
    }

    /// The one of that number.
    fn at(&self, number: usize) -> Option<FrontPlace<'a>>
        ensures place { (image : List ℕ) → option_map (front_in image) result ≡ slice_get (fronts_in image self.now) number }
        ensures within { IfSome result (EndsWithin self.now.size) }
    {
        self.list.get(number).copied()
    }

    /// The first of that name.
    fn named(&self, name: &[u8]) -> Option<FrontPlace<'a>>
        ensures first { (image : List ℕ) → option_map (front_in image) result ≡ find (is_named name.now) (fronts_in image self.now) }
        ensures within { IfSome result (EndsWithin self.now.size) }
    {
        match self.paths.number(name) {
            Some(number) => self.at(number),
            None => None,
        }
    }

    /// The front of that name that counts: the first. If there is none, it has no bytes.
    pub fn front(&self, name: &'a [u8]) -> FrontPlace<'a>
        ensures path { result.path ≡ name.entry }
        ensures id { (image : List ℕ) → build_id_of (part image result.start result.count) ≡ spec.id_named (fronts_in image self.now) name.entry.now }
        ensures within { EndsWithin self.now.size result }
    {
        match self.named(name) {
            Some(place) => FrontPlace {
                path: name,
                start: place.start,
                count: place.count,
            },
            None => no_front(name),
        }
    }
}
