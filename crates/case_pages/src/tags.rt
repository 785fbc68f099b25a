// The elements of pages.
ghost use Rattle.std.specs.Prelude.{◌≡◌};
ghost use Rattle.case_pages.specs.Html.{is_void};
ghost use Rattle.case_pages.specs.Names.{tag_name};

/// An element of a page. There are no others: no script, no link to another page, no image, no form.
#[derive(Clone, Copy)]
pub enum Tag {
    Html,
    Head,
    Meta,
    Title,
    Style,
    Body,
    Main,
    Header,
    Section,
    Footer,
    H1,
    H2,
    H3,
    P,
    Ul,
    Li,
    Dl,
    Dt,
    Dd,
    Div,
    Span,
    B,
    I,
    Small,
    Code,
    A,
    Table,
    Thead,
    Tbody,
    Tr,
    Th,
    Td,
    Figure,
    Figcaption,
    Svg,
    Rect,
    Line,
    Path,
    Text,
}

impl Tag {
    // Whether the element has no end tag.
    pub(crate) fn is_void(self) -> bool
        ensures { result ≡ is_void (tag_name self) }
    {
        match self {
            Tag::Meta => true,
            _ => false,
        }
    }

    // The name of the element, as a tag has it.
    pub(crate) fn name(self) -> &'static [u8]
        ensures { result.now ≡ tag_name self }
    {
        match self {
            Tag::Html => b"html",
            Tag::Head => b"head",
            Tag::Meta => b"meta",
            Tag::Title => b"title",
            Tag::Style => b"style",
            Tag::Body => b"body",
            Tag::Main => b"main",
            Tag::Header => b"header",
            Tag::Section => b"section",
            Tag::Footer => b"footer",
            Tag::H1 => b"h1",
            Tag::H2 => b"h2",
            Tag::H3 => b"h3",
            Tag::P => b"p",
            Tag::Ul => b"ul",
            Tag::Li => b"li",
            Tag::Dl => b"dl",
            Tag::Dt => b"dt",
            Tag::Dd => b"dd",
            Tag::Div => b"div",
            Tag::Span => b"span",
            Tag::B => b"b",
            Tag::I => b"i",
            Tag::Small => b"small",
            Tag::Code => b"code",
            Tag::A => b"a",
            Tag::Table => b"table",
            Tag::Thead => b"thead",
            Tag::Tbody => b"tbody",
            Tag::Tr => b"tr",
            Tag::Th => b"th",
            Tag::Td => b"td",
            Tag::Figure => b"figure",
            Tag::Figcaption => b"figcaption",
            Tag::Svg => b"svg",
            Tag::Rect => b"rect",
            Tag::Line => b"line",
            Tag::Path => b"path",
            Tag::Text => b"text",
        }
    }
}
