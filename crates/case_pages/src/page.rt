// Pages, while they are written.
ghost use Rattle.std.specs.Prelude.{◌≡◌, ◌∷◌, ◌++◌, [], false, IfOk, OnOk, None, codes, decimal, drop, ℕ, if◌then◌else◌};
ghost use Rattle.std.specs.List.{list_all};
ghost use Rattle.script_words.specs.Printing.{hexadecimal};
ghost use Rattle.case_pages.specs.Escaping.{plain};
ghost use Rattle.case_pages.specs.Html.{chars, tag, is_void};
ghost use Rattle.case_pages.specs.Names.{tag_name};
ghost use Rattle.case_pages.specs.Pages.{GoesOn, IsFront, IsPage, end_tokens, is_style_byte, style};
ghost use Rattle.case_pages.specs.Pieces.{attributes_text};

use crate::attributes::Attribute;
use crate::escape::push_text;
use crate::pieces::{push_end, push_start};
use crate::tags::Tag;
use script_streams::{Output, StreamFault};
use script_words::{print_decimal, print_hexadecimal};
use std::alloc::{AllocError, Global};

/// A page that is written token by token. The written bytes always read back as these tokens, whatever the texts are: a text starts and ends
/// no tag. The end tags are those of the elements that are open. Once there was no memory nothing more is written, and `finish` reports it.
#[derive(Drop)]
pub struct Page {
    text: Vec<u8>,
    // The elements that are open, the innermost last.
    outer: Vec<Tag>,
    failed: bool,
    ghost sound: { failed ≡ false → IsFront text.items outer.items },
}

// Puts a start tag at the end of a page, with these elements open.
fn push_element(
    page: &mut Vec<u8>,
    outer: &mut Vec<Tag>,
    element: Tag,
    attributes: &[Attribute],
) -> Result<(), AllocError>
    ensures { OnOk result (GoesOn page.old.items outer.old.items page.new.items outer.new.items (tag (tag_name element) (drop 1 (attributes_text attributes.now)) ∷ [])) }
{
    push_start(page, element, attributes)?;
    if !element.is_void() {
        outer.push(element)?;
    }
    Ok(())
}

// Puts the end tag of the innermost element at the end of a page, if one is open.
fn push_innermost_end(page: &mut Vec<u8>, outer: &mut Vec<Tag>) -> Result<(), AllocError>
    ensures { OnOk result (GoesOn page.old.items outer.old.items page.new.items outer.new.items (end_tokens outer.old.items)) }
{
    match outer.pop() {
        Some(element) => push_end(page, element),
        None => Ok(()),
    }
}

// Puts the end tags of all elements that are open at the end of a page.
fn push_ends(page: &mut Vec<u8>, outer: &mut Vec<Tag>) -> Result<(), AllocError>
    ensures { OnOk result (IsFront page.old.items outer.old.items → IsPage page.new.items) }
{
    while let Some(element) = outer.pop() {
        push_end(page, element)?;
    }
    Ok(())
}

// Puts a style at the end of a page, if it has no byte that could end it.
fn push_style(page: &mut Vec<u8>, css: &str) -> Result<(), AllocError>
    ensures { OnOk result (page.new.items ≡ page.old.items ++ style css.now) }
{
    if is_style(css.as_bytes()) {
        page.extend_from_slice(css.as_bytes())?;
    }
    Ok(())
}

fn is_style(css: &[u8]) -> bool
    ensures { result ≡ list_all is_style_byte css.now }
{
    css.iter().all(|byte| *byte != b'<' && *byte != b'&')
}

impl Page {
    ghost use Rattle.case_pages.specs.PageWords.{Writes, tokens_of};

    /// A page with its doctype alone.
    ///
    /// # Errors
    ///
    /// There is no memory.
    pub fn new(alloc: Global) -> Result<Page, AllocError>
        ensures { IfOk result (λ page. tokens_of page ≡ tag (codes "!DOCTYPE") (codes "html") ∷ chars (codes "\n")) }
    {
        let mut text = Vec::new(alloc);
        text.extend_from_slice(b"<!DOCTYPE html>\n")?;
        Ok(Page {
            text,
            outer: Vec::new(alloc),
            failed: false,
        })
    }

    /// Opens an element with these attributes. A `Meta` has no end, and is not open behind it.
    pub fn open(&mut self, element: Tag, attributes: &[Attribute])
        ensures { Writes self.old self.new (tag (tag_name element) (drop 1 (attributes_text attributes.now)) ∷ []) }
    {
        if self.failed {
            return;
        }
        match push_element(&mut self.text, &mut self.outer, element, attributes) {
            Ok(()) => {}
            Err(_) => self.failed = true,
        }
    }

    /// Closes the innermost element that is open.
    pub fn close(&mut self)
        ensures { Writes self.old self.new (end_tokens self.old.outer.items) }
    {
        if self.failed {
            return;
        }
        match push_innermost_end(&mut self.text, &mut self.outer) {
            Ok(()) => {}
            Err(_) => self.failed = true,
        }
    }

    /// Writes a text: its bytes outside 0x20 to 0x7e, and backslashes, as `\xHH`.
    pub fn text(&mut self, text: &[u8])
        ensures { Writes self.old self.new (chars (plain text.now)) }
    {
        if self.failed {
            return;
        }
        match push_text(&mut self.text, text) {
            Ok(()) => {}
            Err(_) => self.failed = true,
        }
    }

    /// Writes a style sheet as it is, into the element `Style`; nothing, if it has a byte that could end it.
    pub fn style(&mut self, css: &'static str)
        ensures { Writes self.old self.new (chars (style css.now)) }
    {
        if self.failed {
            return;
        }
        match push_style(&mut self.text, css) {
            Ok(()) => {}
            Err(_) => self.failed = true,
        }
    }

    /// Closes all elements that are open, and gives the bytes of the page.
    ///
    /// # Errors
    ///
    /// There was no memory for all that was written.
    pub fn finish(self) -> Result<Vec<u8>, AllocError>
        ensures { IfOk result (λ text. IsPage text.items) }
    {
        if self.failed {
            return Err(AllocError);
        }
        let mut text = self.text;
        let mut outer = self.outer;
        push_ends(&mut text, &mut outer)?;
        Ok(text)
    }
}

// A text that is printed to a page is written on it.
impl Output for Page {
    ghost taken = { λ _. None };

    ghost failures = { λ _. 0 };

    fn write(&mut self, from: &[u8]) -> Result<usize, StreamFault> {
        self.text(from);
        Ok(from.len())
    }
}
