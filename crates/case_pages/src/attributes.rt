// The attributes of elements.
ghost use Rattle.std.specs.Prelude.{◌≡◌};
ghost use Rattle.case_pages.specs.Names.{attribute_name};

/// The name of an attribute. There are no others: none has a style or a script as its value.
#[derive(Clone, Copy)]
pub enum AttributeName {
    Class,
    Id,
    Href,
    Scope,
    Colspan,
    Lang,
    Charset,
    Name,
    Content,
    HttpEquiv,
    ViewBox,
    Role,
    AriaLabel,
    X,
    Y,
    X1,
    X2,
    Y1,
    Y2,
    Width,
    Height,
    D,
}

/// The value of an attribute. It is a constant of the program or a number, and no text that comes from elsewhere.
#[derive(Clone, Copy)]
pub enum Value {
    /// A constant.
    Constant(&'static str),
    /// A number.
    Number(u64),
    /// A number of tenths, with its decimal: 123 is `12.3`.
    Tenths(u64),
    /// The place of a case on the page, `case-N`.
    Case(u32),
    /// A link to the place of a case on the page, `#case-N`.
    LinkToCase(u32),
    /// A box from 0 0 on, by its width and its height.
    Box(u64, u64),
    /// The path of a small triangle that points down to a place: by tenths to the right and down.
    Triangle(u64, u64),
}

/// An attribute of an element.
#[derive(Clone, Copy)]
pub struct Attribute {
    pub name: AttributeName,
    pub value: Value,
}

impl AttributeName {
    // The name, as a tag has it.
    pub(crate) fn name(self) -> &'static [u8]
        ensures { result.now ≡ attribute_name self }
    {
        match self {
            AttributeName::Class => b"class",
            AttributeName::Id => b"id",
            AttributeName::Href => b"href",
            AttributeName::Scope => b"scope",
            AttributeName::Colspan => b"colspan",
            AttributeName::Lang => b"lang",
            AttributeName::Charset => b"charset",
            AttributeName::Name => b"name",
            AttributeName::Content => b"content",
            AttributeName::HttpEquiv => b"http-equiv",
            AttributeName::ViewBox => b"viewBox",
            AttributeName::Role => b"role",
            AttributeName::AriaLabel => b"aria-label",
            AttributeName::X => b"x",
            AttributeName::Y => b"y",
            AttributeName::X1 => b"x1",
            AttributeName::X2 => b"x2",
            AttributeName::Y1 => b"y1",
            AttributeName::Y2 => b"y2",
            AttributeName::Width => b"width",
            AttributeName::Height => b"height",
            AttributeName::D => b"d",
        }
    }
}
