//! Laws of signatures and groups. These functions do nothing.
ghost use Rattle.crash_signatures.specs.GroupLaws.{EachCoreIsInOneGroup, PerhapsHasOneHome, SameGroupIffSameSignature};
ghost use Rattle.crash_signatures.specs.SignatureLaws.{MovedAlikeIsSignedAlike, RecursionsAreTurned, SignaturesAreShort};

/// A signature has at most seven words: two marks, and five others.
pub fn a_signature_is_short()
    ensures { SignaturesAreShort }
{}

/// Where files are mapped does not matter: if each frame in a file is moved with the range of memory into which the file is
/// mapped, the signature is the same.
pub fn moved_alike_is_signed_alike()
    ensures { MovedAlikeIsSignedAlike }
{}

/// The words of a deep recursion are one of the turns of its cycle, and none of the turns is less.
pub fn a_recursion_is_turned()
    ensures { RecursionsAreTurned }
{}

/// The groups of cores have each core once, among their cases or among those that are perhaps of them.
pub fn each_core_is_in_one_group()
    ensures { EachCoreIsInOneGroup }
{}

/// A group's cases are the cores without a home that have its signature. There is one at least, and no two groups have one signature.
pub fn same_group_iff_same_signature()
    ensures { SameGroupIffSameSignature }
{}

/// A case that is perhaps of a group has frames missing, and the cores of its place whose frames are all there have the group's
/// signature. There are such, and all of them have it.
pub fn perhaps_has_one_home()
    ensures { PerhapsHasOneHome }
{}
