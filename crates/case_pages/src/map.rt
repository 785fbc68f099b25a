// The memory map of a core's process: the mappings by address, those of one file in a row as one bar.
use crate::memory::{Memory, Use, has};
use crate::page::Page;
use crate::svg::{begin_box, begin_picture, begin_words, put_line, put_triangle};
use crate::tags::Tag;
use crate::texts::{open, put, put_decimal, put_front, put_hexadecimal, put_looking, put_size};
use address_space::Mapping;
use std::alloc::{AllocError, Global};

// So many bars are shown one by one. If there are more, of those in a row without a mark only the first and the last are.
const FEW: usize = 16;

// How many bars in a row are shown one by one in any case.
const RUN: usize = 4;

// A bar of more pieces is one piece.
const PIECES: usize = 32;

// How many tenths of a pixel a row is high, and where its bar begins.
const ROW: u64 = 240;

const LEFT: u64 = 1_660;

// A page of memory.
const PAGE: u64 = 4_096;

// Mappings in a row of one file.
#[derive(Clone, Copy)]
struct Bar {
    // The number of the first of them, and how many they are.
    first: usize,
    count: usize,
    start: u64,
    past: u64,
    // It has an address that is marked.
    marked: bool,
}

// A row of the map.
#[derive(Clone, Copy)]
enum Row {
    Bar(Bar),
    // So many bars that are not shown, from an address on, and how many bytes they have.
    More(u64, u64, u64),
}

// An address that is marked.
#[derive(Clone, Copy)]
struct Mark {
    name: &'static [u8],
    look: &'static str,
    label: &'static str,
    address: u64,
}

// Puts the map, if the core has a mapping.
pub(crate) fn put_map(
    alloc: Global,
    page: &mut Page,
    memory: &Memory<'_>,
) -> Result<(), AllocError> {
    if memory.mappings.is_empty() {
        return Ok(());
    }
    let marks = marks_of(alloc, memory)?;
    let bars = bars_of(alloc, memory, &marks)?;
    let rows = rows_of(alloc, &bars)?;
    let outside = marks
        .iter()
        .filter(|mark| memory.at(mark.address).is_none())
        .count();
    page.open(Tag::H3, &[]);
    page.text(b"Memory");
    put(
        page,
        Tag::Small,
        b" lengths are not to scale; hollow: not in the core",
    );
    page.close();
    let height = (rows.len() as u64)
        .saturating_add(outside as u64)
        .saturating_mul(24);
    begin_picture(page, "map", 960, height.saturating_add(4), "The memory map");
    put_rows(page, memory, &marks, &rows);
    page.close();
    Ok(())
}

// The addresses that are marked.
fn marks_of(alloc: Global, memory: &Memory<'_>) -> Result<Vec<Mark>, AllocError> {
    let mut marks = Vec::new(alloc);
    push_mark(&mut marks, b"pc", "c-pc", "lab c-pc", memory.pc)?;
    push_mark(&mut marks, b"sp", "c-sp", "lab c-sp", memory.sp)?;
    push_mark(&mut marks, b"fault", "c-fault", "lab c-fault", memory.fault)?;
    marks.sort_unstable_by_key(|mark| mark.address);
    Ok(marks)
}

fn push_mark(
    marks: &mut Vec<Mark>,
    name: &'static [u8],
    look: &'static str,
    label: &'static str,
    address: Option<u64>,
) -> Result<(), AllocError> {
    if let Some(address) = address {
        marks.push(Mark {
            name,
            look,
            label,
            address,
        })?;
    }
    Ok(())
}

fn bars_of(alloc: Global, memory: &Memory<'_>, marks: &[Mark]) -> Result<Vec<Bar>, AllocError> {
    let mut bars = Vec::new(alloc);
    for (at, mapping) in memory.mappings.iter().enumerate() {
        let bar = Bar {
            first: at,
            count: 1,
            start: mapping.start,
            past: mapping.start.saturating_add(mapping.memsz),
            marked: marks.iter().any(|mark| has(mapping, mark.address)),
        };
        match joined(memory, bars.last(), mapping, bar) {
            Some(longer) => {
                bars.pop();
                bars.push(longer)?;
            }
            None => bars.push(bar)?,
        }
    }
    Ok(bars)
}

// The bar before, with this one at its end, if they are of one file and adjoin.
fn joined<'a>(
    memory: &Memory<'a>,
    before: Option<&Bar>,
    mapping: &Mapping<'a>,
    bar: Bar,
) -> Option<Bar> {
    let before = before?;
    let last = memory.mappings.get(before.first)?;
    if before.past != bar.start || !are_of_one_file(memory, last, mapping) {
        return None;
    }
    Some(Bar {
        count: before.count.saturating_add(1),
        past: bar.past,
        marked: before.marked || bar.marked,
        ..*before
    })
}

fn are_of_one_file<'a>(memory: &Memory<'a>, mapping: &Mapping<'a>, other: &Mapping<'a>) -> bool {
    match (mapping.spot, other.spot) {
        (Some(spot), Some(others)) => spot.name == others.name,
        (None, None) => memory.name_of(mapping) == memory.name_of(other),
        _ => false,
    }
}

// The rows for bars.
fn rows_of(alloc: Global, bars: &[Bar]) -> Result<Vec<Row>, AllocError> {
    let mut rows = Vec::new(alloc);
    if bars.len() <= FEW {
        push_bars(&mut rows, bars)?;
        return Ok(rows);
    }
    let mut run = Vec::new(alloc);
    for bar in bars {
        if bar.marked {
            push_run(&mut rows, &run)?;
            run.clear();
            rows.push(Row::Bar(*bar))?;
        } else {
            run.push(*bar)?;
        }
    }
    push_run(&mut rows, &run)?;
    Ok(rows)
}

fn push_bars(rows: &mut Vec<Row>, bars: &[Bar]) -> Result<(), AllocError> {
    for bar in bars {
        rows.push(Row::Bar(*bar))?;
    }
    Ok(())
}

// Puts bars without a mark to the rows: if they are more than four the first, how many more, and the last.
fn push_run(rows: &mut Vec<Row>, run: &[Bar]) -> Result<(), AllocError> {
    if run.len() <= RUN {
        return push_bars(rows, run);
    }
    let (first, others) = run.split_at(1);
    let (more, last) = others.split_at(others.len().saturating_sub(1));
    push_bars(rows, first)?;
    rows.push(more_of(more))?;
    push_bars(rows, last)
}

fn more_of(bars: &[Bar]) -> Row {
    let mut bytes = 0;
    for bar in bars {
        bytes = bar.past.saturating_sub(bar.start).saturating_add(bytes);
    }
    let start = match bars.first() {
        Some(bar) => bar.start,
        None => 0,
    };
    Row::More(start, bars.len() as u64, bytes)
}

// Puts the rows, and before each the marks that are in no mapping and before it.
fn put_rows(page: &mut Page, memory: &Memory<'_>, marks: &[Mark], rows: &[Row]) {
    let longest = longest_of(rows);
    let mut y = 0;
    let mut from = 0;
    for row in rows {
        let start = start_of(row);
        y = put_outside(page, memory, marks, (from, start), y);
        match row {
            Row::Bar(bar) => put_bar(page, memory, marks, bar, longest, y),
            Row::More(_, count, bytes) => put_more_row(page, *count, *bytes, y),
        }
        y = ROW.saturating_add(y);
        from = start;
    }
    put_outside(page, memory, marks, (from, u64::MAX), y);
}

fn start_of(row: &Row) -> u64 {
    match row {
        Row::Bar(bar) => bar.start,
        Row::More(start, _, _) => *start,
    }
}

fn longest_of(rows: &[Row]) -> u64 {
    let mut longest = 1;
    for row in rows {
        if let Row::Bar(bar) = row {
            longest = bar.past.saturating_sub(bar.start).max(longest);
        }
    }
    longest
}

// Puts the marks in a range of addresses that are in no mapping. Returns the place where the next row starts.
fn put_outside(
    page: &mut Page,
    memory: &Memory<'_>,
    marks: &[Mark],
    range: (u64, u64),
    y: u64,
) -> u64 {
    let mut next = y;
    for mark in marks {
        if is_outside(memory, mark, range) {
            put_gap(page, mark, next);
            next = ROW.saturating_add(next);
        }
    }
    next
}

fn is_outside(memory: &Memory<'_>, mark: &Mark, range: (u64, u64)) -> bool {
    let is_last = mark.address == u64::MAX && range.1 == u64::MAX;
    range.0 <= mark.address
        && (mark.address < range.1 || is_last)
        && memory.at(mark.address).is_none()
}

fn put_gap(page: &mut Page, mark: &Mark, y: u64) {
    put_address(page, mark.address, y);
    let middle = y.saturating_add(120);
    put_line(page, "gap", (LEFT, middle), (5_260, middle));
    begin_words(page, mark.label, (5_400, y.saturating_add(160)));
    page.text(mark.name);
    page.text(b": nothing is mapped here");
    page.close();
}

fn put_address(page: &mut Page, address: u64, y: u64) {
    begin_words(page, "addr end", (1_500, y.saturating_add(160)));
    put_hexadecimal(page, address);
    page.close();
}

fn put_more_row(page: &mut Page, count: u64, bytes: u64, y: u64) {
    begin_words(page, "addr", (LEFT, y.saturating_add(160)));
    page.text(b"and ");
    put_decimal(page, count);
    page.text(b" more, ");
    put_size(page, bytes);
    page.close();
}

// Puts a bar: its address, its pieces, the marks in it, its name and its size.
fn put_bar(page: &mut Page, memory: &Memory<'_>, marks: &[Mark], bar: &Bar, longest: u64, y: u64) {
    let bytes = bar.past.saturating_sub(bar.start);
    let width = width_of(bytes, longest);
    let (_, rest) = memory
        .mappings
        .split_at(bar.first.min(memory.mappings.len()));
    let (pieces, _) = rest.split_at(bar.count.min(rest.len()));
    let Some(first) = pieces.first() else {
        return;
    };
    put_address(page, bar.start, y);
    let right = put_pieces(page, memory, pieces, (bytes, width), y);
    put_marks(page, marks, bar, width, y);
    let row = y.saturating_add(160);
    begin_words(page, "lab", (right.saturating_add(100).max(5_400), row));
    put_front(page, memory.name_of(first));
    page.close();
    put_known(page, marks, bar, bytes, row);
    begin_words(page, "addr end", (9_520, row));
    page.text(&rights_of(pieces));
    page.close();
}

// Puts the pieces of a bar. Returns the place where they end.
fn put_pieces(
    page: &mut Page,
    memory: &Memory<'_>,
    pieces: &[Mapping<'_>],
    bar: (u64, u64),
    y: u64,
) -> u64 {
    let mut x = LEFT;
    if pieces.len() > PIECES {
        put_piece(page, memory, pieces.first(), bar.0, (x, bar.1), y);
        return x.saturating_add(bar.1);
    }
    for piece in pieces {
        let width = share(bar.1, piece.memsz, bar.0).max(30);
        put_piece(page, memory, Some(piece), piece.memsz, (x, width), y);
        x = x.saturating_add(width);
    }
    x
}

fn put_piece(
    page: &mut Page,
    memory: &Memory<'_>,
    piece: Option<&Mapping<'_>>,
    bytes: u64,
    place: (u64, u64),
    y: u64,
) {
    let Some(piece) = piece else {
        return;
    };
    let look = look_of(memory.use_of(piece), piece.filesz == 0);
    begin_box(page, look, (place.0, y.saturating_add(40)), (place.1, 160));
    page.open(Tag::Title, &[]);
    put_size(page, bytes);
    page.text(b", ");
    page.text(&letters_of(piece.flags));
    if piece.filesz == 0 {
        page.text(b", not in the core");
    }
    page.close();
    page.close();
}

// How a piece looks: hollow, if the core has none of its bytes.
fn look_of(purpose: Use, hollow: bool) -> &'static str {
    match (purpose, hollow) {
        (Use::Stack, false) => "m-stack",
        (Use::Code, false) => "m-code",
        (Use::Data, false) => "m-rw",
        (Use::ReadOnly, false) => "m-ro",
        (Use::Stack, true) => "m-stack hollow",
        (Use::Code, true) => "m-code hollow",
        (Use::Data, true) => "m-rw hollow",
        (Use::ReadOnly, true) => "m-ro hollow",
    }
}

// Puts a triangle for each mark that is in a bar.
fn put_marks(page: &mut Page, marks: &[Mark], bar: &Bar, width: u64, y: u64) {
    let bytes = bar.past.saturating_sub(bar.start);
    for mark in marks {
        if is_in(bar, mark) {
            let right = share(width, mark.address.saturating_sub(bar.start), bytes);
            put_triangle(
                page,
                mark.look,
                (LEFT.saturating_add(right), y.saturating_add(120)),
            );
        }
    }
}

fn is_in(bar: &Bar, mark: &Mark) -> bool {
    bar.start <= mark.address && mark.address < bar.past
}

// Puts the marks that are in a bar, or how many bytes it has.
fn put_known(page: &mut Page, marks: &[Mark], bar: &Bar, bytes: u64, row: u64) {
    match marks.iter().find(|mark| is_in(bar, mark)) {
        Some(mark) => begin_words(page, mark.label, (7_800, row)),
        None => begin_words(page, "addr", (7_800, row)),
    }
    let mut some = false;
    for mark in marks {
        if is_in(bar, mark) {
            page.text(if some { b", " } else { b"" });
            some = true;
            page.text(mark.name);
            page.text(b" ");
            put_hexadecimal(page, mark.address);
        }
    }
    if !some {
        put_size(page, bytes);
    }
    page.close();
}

// The rights that mappings give, if they are the same for all.
fn rights_of(pieces: &[Mapping<'_>]) -> [u8; 3] {
    match pieces.first() {
        Some(first)
            if pieces
                .iter()
                .all(|piece| piece.flags & 7 == first.flags & 7) => letters_of(first.flags),
        _ => *b"   ",
    }
}

fn letters_of(flags: u32) -> [u8; 3] {
    [
        if flags & 4 > 0 { b'r' } else { b'-' },
        if flags & 2 > 0 { b'w' } else { b'-' },
        if flags & 1 > 0 { b'x' } else { b'-' },
    ]
}

// So much of a width as these bytes are of all.
fn share(width: u64, bytes: u64, all: u64) -> u64 {
    let part = u128::from(width) * u128::from(bytes) / u128::from(all).max(1);
    part.min(u128::from(width)) as u64
}

// How wide the bar of so many bytes is. The longest has 3,600 tenths; the widths grow as the logarithms of the lengths do.
fn width_of(bytes: u64, longest: u64) -> u64 {
    let most = log_of(longest / PAGE);
    share(3_300, log_of(bytes / PAGE), most).saturating_add(300)
}

// 256 times the logarithm of 1 more than a number: exact for powers of 2, and between them in a straight line.
fn log_of(number: u64) -> u64 {
    let mut left = number.saturating_add(1).saturating_mul(256);
    let mut log = 0;
    while left >= 512 {
        left /= 2;
        log = 256_u64.saturating_add(log);
    }
    log.saturating_add(left.saturating_sub(256))
}
