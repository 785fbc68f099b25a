//! Laws of places. These functions do nothing.
ghost use Rattle.case_unpacking.specs.PlaceLaws.{PlacesAreApart, PlacesAreInside, PlainNamesAreKept};

/// Each place is `sysroot` or `other`, and one component or more behind it: none is empty, `.` or `..`, or longer than 255 bytes, and
/// all have plain bytes alone. So no file is unpacked outside, none is where the core or the commands are, and no name adds a word or a line to the
/// commands.
pub fn places_are_inside()
    ensures { PlacesAreInside }
{}

/// No file is at the place of another, or in it as in a directory. Two are
/// at one place only if they are one image: of one case, and in `other`.
pub fn places_are_apart()
    ensures { PlacesAreApart }
{}

/// A plain name is the place of its file below `sysroot`, if no plain
/// name before it is the same path, a directory on it, or below it.
pub fn plain_names_are_kept()
    ensures { PlainNamesAreKept }
{}
