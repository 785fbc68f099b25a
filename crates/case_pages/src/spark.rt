// When the cores of a group came, as a small picture in its row. It has the bars of the plot.
use crate::bars::bars_of;
use crate::page::Page;
use crate::programs::program_of;
use crate::span::Span;
use crate::svg::{begin_box, begin_picture, put_line};
use group_tables::GroupRow;
use std::alloc::{AllocError, Global};

// Where the bars are, in tenths of a pixel: the width of all, the bottom, and the height of the highest.
const WIDTH: u64 = 920;

const BOTTOM: u64 = 160;

const HEIGHT: u64 = 150;

// Puts a bar for each span of time in which a core of the group came.
pub(crate) fn put_spark(
    alloc: Global,
    page: &mut Page,
    row: &GroupRow<'_>,
    latest: u64,
    span: Span,
) -> Result<(), AllocError> {
    let program = program_of(alloc, row, latest)?;
    let bars = bars_of(alloc, span, &program.times)?;
    let most = bars.iter().max().map_or(0, |most| *most);
    begin_picture(page, "spark", 92, 17, "When its cores came");
    put_line(page, "base", (0, 165), (WIDTH, 165));
    for (at, bar) in bars.iter().enumerate() {
        if *bar > 0 {
            put_bar(page, (at as u64, bars.len() as u64), (*bar, most));
        }
    }
    page.close();
    Ok(())
}

// Puts a bar: which one of how many, and how many cores of the highest's. A bar is a pixel wide and high, or more.
fn put_bar(page: &mut Page, bar: (u64, u64), cores: (u64, u64)) {
    let bars = bar.1.max(1);
    let width = (WIDTH * 3 / 4 / bars).max(10);
    let left = (bar.0.saturating_mul(WIDTH) / bars).min(WIDTH);
    let height = (cores.0.saturating_mul(HEIGHT) / cores.1.max(1))
        .min(HEIGHT)
        .max(10);
    begin_box(page, "bar", (left, BOTTOM - height), (width, height));
    page.close();
}
