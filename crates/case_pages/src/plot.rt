// When the cores of an archive came: bars, stacked by program.
ghost use Rattle.std.specs.Prelude.{◌<◌};

use crate::bars::{is_among, span_of};
use crate::page::Page;
use crate::programs::{Layer, layers_of, programs_of, times_of};
use crate::scale::Scale;
use crate::span::Span;
use crate::svg::{begin_box, begin_picture, begin_words, put_line};
use crate::tags::Tag;
use crate::texts::{base_of, open, put, put_decimal, put_looking, put_text, put_time};
use case_tables::print_day;
use group_tables::GroupRow;
use script_streams::Reply;
use std::alloc::{AllocError, Global};

// A day, in seconds.
const DAY: u64 = 86_400;

// How many marks the axis of times has, about.
const MARKS: u64 = 8;

// Puts the plot, and how many of the cores are in none of its bars. Returns the bars, if there are any.
pub(crate) fn put_plot(
    alloc: Global,
    page: &mut Page,
    rows: &[GroupRow<'_>],
    cores: u64,
    latest: u64,
) -> Result<Option<Span>, AllocError> {
    page.open(Tag::Section, &[]);
    put(page, Tag::H2, b"Over time");
    let programs = programs_of(alloc, rows, latest)?;
    let times = times_of(alloc, &programs)?;
    let bars = span_over(&times);
    match bars {
        Some(span) => {
            let layers = layers_of(alloc, &programs, span)?;
            put_figure(alloc, page, span, &layers)?;
            let shown = times.iter().filter(|time| is_among(span, **time)).count() as u64;
            put_left_out(page, cores.saturating_sub(shown), latest);
        }
        None => put_looking(
            page,
            Tag::P,
            "dim",
            b"No core has a time that can be right.",
        ),
    }
    page.close();
    Ok(bars)
}

// The bars for these times, if there are any.
fn span_over(times: &[u64]) -> Option<Span> {
    let oldest = *times.iter().min()?;
    let newest = *times.iter().max()?;
    if oldest > newest {
        return None;
    }
    Some(span_of(oldest, newest))
}

// Puts how many cores are in no bar.
fn put_left_out(page: &mut Page, count: u64, latest: u64) {
    if count == 0 {
        return;
    }
    open(page, Tag::P, "dim");
    put_decimal(page, count);
    page.text(if count == 1 {
        b" core is"
    } else {
        b" cores are"
    });
    page.text(b" in no bar: without a time, or with one before the year 2000, after ");
    put_time(page, latest);
    page.text(b", or over four years before the newest.");
    page.close();
}

// Puts the bars and the key of their colours.
fn put_figure(
    alloc: Global,
    page: &mut Page,
    span: Span,
    layers: &[Layer<'_>],
) -> Result<(), AllocError> {
    let scale = Scale::of(span.count, highest(alloc, layers)?);
    page.open(Tag::Figure, &[]);
    begin_picture(page, "plot", 960, 220, "Crashes over time by program");
    put_grid(page, &scale);
    put_layers(alloc, page, &scale, span, layers)?;
    put_axis(page, &scale, span);
    page.close();
    put(page, Tag::Figcaption, caption(span.step));
    put_legend(page, layers);
    page.close();
    Ok(())
}

// How many cores the highest bar has.
fn highest(alloc: Global, layers: &[Layer<'_>]) -> Result<u64, AllocError> {
    let mut tops = Vec::new(alloc);
    for layer in layers {
        tops = stacked(alloc, &tops, &layer.bars)?;
    }
    Ok(tops.iter().max().map_or(0, |top| *top))
}

// The tops of bars, with those of another program on them. If there are no bars yet, they start at 0.
fn stacked(alloc: Global, tops: &[u64], bars: &[u64]) -> Result<Vec<u64>, AllocError> {
    let mut sums = Vec::new(alloc);
    for (at, bar) in bars.iter().enumerate() {
        sums.push(bar.saturating_add(top_at(tops, at)))?;
    }
    Ok(sums)
}

fn top_at(tops: &[u64], at: usize) -> u64 {
    match tops.get(at) {
        Some(top) => *top,
        None => 0,
    }
}

fn put_grid(page: &mut Page, scale: &Scale) {
    for line in 0..scale.lines.saturating_add(1) {
        let cores = line.saturating_mul(scale.tick);
        let y = scale.y(cores);
        put_line(page, "grid", (400, y), (9_520, y));
        begin_words(page, "axis end", (320, y + 40));
        put_decimal(page, cores);
        page.close();
    }
}

fn put_layers(
    alloc: Global,
    page: &mut Page,
    scale: &Scale,
    span: Span,
    layers: &[Layer<'_>],
) -> Result<(), AllocError> {
    let mut tops = Vec::new(alloc);
    for layer in layers {
        put_layer(page, scale, span, layer, &tops);
        tops = stacked(alloc, &tops, &layer.bars)?;
    }
    Ok(())
}

fn put_layer(page: &mut Page, scale: &Scale, span: Span, layer: &Layer<'_>, tops: &[u64]) {
    for (at, bar) in layer.bars.iter().enumerate() {
        if *bar > 0 {
            put_bar(
                page,
                scale,
                span,
                layer,
                at as u64,
                (top_at(tops, at), *bar),
            );
        }
    }
}

// Puts a bar's part of one colour: so many cores, above those of the other colours.
fn put_bar(
    page: &mut Page,
    scale: &Scale,
    span: Span,
    layer: &Layer<'_>,
    at: u64,
    cores: (u64, u64),
) {
    let top = scale.y(cores.0.saturating_add(cores.1));
    let width = scale.width();
    begin_box(
        page,
        layer.look,
        (scale.x(at) + width * 12 / 100, top),
        (width * 76 / 100, scale.y(cores.0).saturating_sub(top)),
    );
    page.open(Tag::Title, &[]);
    put_time(page, start_of(span, at));
    page.text(b": ");
    put_decimal(page, cores.1);
    page.text(b" of ");
    put_program(page, layer);
    page.close();
    page.close();
}

// When a bar begins.
fn start_of(span: Span, at: u64) -> u64 {
    span.first.saturating_add(at).saturating_mul(span.step)
}

fn put_program(page: &mut Page, layer: &Layer<'_>) {
    match layer.program {
        Some(program) => put_text(page, base_of(program)),
        None => {
            put_decimal(page, layer.programs);
            page.text(if layer.programs == 1 {
                b" other program"
            } else {
                b" other programs"
            });
        }
    }
}

// Puts the days of some bars below them.
fn put_axis(page: &mut Page, scale: &Scale, span: Span) {
    let every = marks_of(span);
    let mut marked = false;
    for at in 0..span.count {
        let start = start_of(span, at);
        if start % every == 0 {
            marked = true;
            put_mark(page, scale.x(at), start);
        }
    }
    if !marked {
        put_mark(page, scale.x(0), start_of(span, 0));
    }
}

// How many seconds are between two marks: whole days, and whole bars.
fn marks_of(span: Span) -> u64
    ensures { 0 < result }
{
    let seconds = span.count.saturating_mul(span.step);
    let unit = span.step.max(DAY);
    unit.saturating_mul((seconds / MARKS / unit).saturating_add(1))
        .max(1)
}

fn put_mark(page: &mut Page, x: u64, time: u64) {
    put_line(page, "tick", (x, 1_940), (x, 1_990));
    if x > 8_700 {
        begin_words(page, "axis end", (x, 2_100));
    } else {
        begin_words(page, "axis", (x.saturating_add(30), 2_100));
    }
    let mut reply = Reply::new(page);
    print_day(&mut reply, time / DAY);
    let _ = reply.finish();
    page.close();
}

fn caption(step: u64) -> &'static [u8] {
    match step {
        3_600 => b"Cores in an hour",
        21_600 => b"Cores in six hours",
        86_400 => b"Cores in a day",
        604_800 => b"Cores in a week",
        _ => b"Cores in four weeks",
    }
}

fn put_legend(page: &mut Page, layers: &[Layer<'_>]) {
    open(page, Tag::Ul, "legend");
    for layer in layers {
        page.open(Tag::Li, &[]);
        open(page, Tag::I, layer.look);
        page.close();
        open(page, Tag::Span, "nm");
        put_program(page, layer);
        page.close();
        page.open(Tag::B, &[]);
        put_decimal(page, layer.cores);
        page.close();
        page.close();
    }
    page.close();
}
