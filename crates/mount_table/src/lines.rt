// One line of the table.
ghost use Rattle.std.specs.Prelude.{◌≡◌};
ghost use Rattle.std.specs.Option.{option_map};
ghost use Rattle.mount_table.specs.Lines.{kind_among, mount_in};
ghost use Rattle.mount_table.specs.MountWords.{mount_view};
ghost use Rattle.mount_table.specs.Pieces.{pieces_of};
ghost use Rattle.mount_table.specs.PiecesLeft.{pieces_left};

use crate::pieces::Pieces;

/// A mount, by the fields of its line.
#[derive(Clone, Copy)]
pub(crate) struct Mount<'a> {
    /// Its device, as MAJOR:MINOR.
    pub(crate) device: &'a [u8],
    /// Its mount point, with the line's escapes.
    pub(crate) point: &'a [u8],
    /// The kind of its file system.
    pub(crate) kind: &'a [u8],
}

/// The mount of a line, if the line has all fields of one.
pub(crate) fn mount_in(line: &[u8]) -> Option<Mount<'_>>
    ensures { option_map mount_view result ≡ mount_in (pieces_of 32 line.now) }
{
    let mut fields = Pieces::new(line, b' ');
    let _number = fields.next()?;
    let _parent = fields.next()?;
    let device = fields.next()?;
    let _root = fields.next()?;
    let point = fields.next()?;
    let _options = fields.next()?;
    let kind = kind_among(fields)?;
    Some(Mount {
        device,
        point,
        kind,
    })
}

// The kind of the file system among the fields behind the mount options: it follows the hyphen that ends the optional ones.
fn kind_among<'a>(fields: Pieces<'a>) -> Option<&'a [u8]>
    ensures { option_map (λ kind. kind.now) result ≡ kind_among (pieces_left fields.entry) }
{
    let mut rest = fields;
    while let Some(one) = rest.next() {
        if one == b"-".as_slice() {
            return rest.next();
        }
    }
    None
}
