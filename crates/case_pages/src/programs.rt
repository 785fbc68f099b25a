// The programs whose cores a plot shows, each in its colour.
use crate::bars::{bars_of, is_among};
use crate::span::Span;
use group_tables::GroupRow;
use std::alloc::{AllocError, Global};

// The first second of the year 2000.
const FIRST_TIME: u64 = 946_684_800;

// The looks of the first programs, and that of all others.
const LOOKS: [&str; 6] = ["s0", "s1", "s2", "s3", "s4", "s5"];

const OTHERS: &str = "s7";

// A program, and the times of its cores that count.
#[derive(Drop)]
pub(crate) struct Program<'a> {
    pub(crate) name: &'a [u8],
    // The number of the first core of it.
    pub(crate) first: u32,
    pub(crate) times: Vec<u64>,
}

// The part of a plot in one colour.
#[derive(Drop)]
pub(crate) struct Layer<'a> {
    pub(crate) look: &'static str,
    // Its program; none, if these are all others.
    pub(crate) program: Option<&'a [u8]>,
    // How many programs these are.
    pub(crate) programs: u64,
    // How many cores the bars have.
    pub(crate) cores: u64,
    // How many each bar has.
    pub(crate) bars: Vec<u64>,
}

// The programs that have cores with times from the year 2000 to the latest: those with the most of them first, and of programs with equally many
// the one whose first core was stored first. So no name decides which colour a program has.
pub(crate) fn programs_of<'a>(
    alloc: Global,
    rows: &[GroupRow<'a>],
    latest: u64,
) -> Result<Vec<Program<'a>>, AllocError> {
    let mut programs = merged(alloc, by_row(alloc, rows, latest)?)?;
    programs.sort_unstable_by_key(|program| rank(program));
    Ok(programs)
}

// The program of each row with such a core, by their names.
fn by_row<'a>(
    alloc: Global,
    rows: &[GroupRow<'a>],
    latest: u64,
) -> Result<Vec<Program<'a>>, AllocError> {
    let mut programs = Vec::new(alloc);
    for row in rows {
        let program = program_of(alloc, row, latest)?;
        if !program.times.is_empty() {
            programs.push(program)?;
        }
    }
    programs.sort_unstable_by(|a, b| a.name.cmp(b.name));
    Ok(programs)
}

// The program of a row, and the times of the row's cores.
pub(crate) fn program_of<'a>(
    alloc: Global,
    row: &GroupRow<'a>,
    latest: u64,
) -> Result<Program<'a>, AllocError> {
    let crash = row.crash;
    let mut program = Program {
        name: crash.program.as_slice(),
        first: u32::MAX,
        times: Vec::new(alloc),
    };
    for member in &row.members {
        let time = member.case.time;
        program.first = program.first.min(member.case.seq);
        if FIRST_TIME <= time && time <= latest {
            program.times.push(time)?;
        }
    }
    Ok(program)
}

// Programs that stand by their names, those of one name as one.
fn merged<'a>(alloc: Global, programs: Vec<Program<'a>>) -> Result<Vec<Program<'a>>, AllocError> {
    let mut merged = Vec::new(alloc);
    for program in programs {
        add_program(&mut merged, program)?;
    }
    Ok(merged)
}

fn add_program<'a>(merged: &mut Vec<Program<'a>>, program: Program<'a>) -> Result<(), AllocError> {
    match merged.pop() {
        Some(last) if last.name == program.name => merged.push(joined(last, program)?)?,
        Some(last) => {
            merged.push(last)?;
            merged.push(program)?;
        }
        None => merged.push(program)?,
    }
    Ok(())
}

// The cores of both.
fn joined<'a>(program: Program<'a>, other: Program<'a>) -> Result<Program<'a>, AllocError> {
    let mut times = program.times;
    times.extend_from_slice(&other.times)?;
    Ok(Program {
        name: program.name,
        first: program.first.min(other.first),
        times,
    })
}

// The place of a program among others.
fn rank(program: &Program<'_>) -> u128 {
    let fewer = u64::MAX - program.times.len() as u64;
    (u128::from(fewer) << 32) | u128::from(program.first)
}

// The first programs, each for itself, and all others together.
pub(crate) fn layers_of<'a>(
    alloc: Global,
    programs: &[Program<'a>],
    span: Span,
) -> Result<Vec<Layer<'a>>, AllocError> {
    let mut layers = Vec::new(alloc);
    let (first, others) = programs.split_at(programs.len().min(LOOKS.len()));
    for (program, look) in first.iter().zip(LOOKS.iter()) {
        layers.push(layer_of(alloc, look, Some(program.name), 1, &program.times, span)?)?;
    }
    if !others.is_empty() {
        let times = times_of(alloc, others)?;
        layers.push(layer_of(alloc, OTHERS, None, others.len() as u64, &times, span)?)?;
    }
    Ok(layers)
}

fn layer_of<'a>(
    alloc: Global,
    look: &'static str,
    program: Option<&'a [u8]>,
    programs: u64,
    times: &[u64],
    span: Span,
) -> Result<Layer<'a>, AllocError> {
    Ok(Layer {
        look,
        program,
        programs,
        cores: times.iter().filter(|time| is_among(span, **time)).count() as u64,
        bars: bars_of(alloc, span, times)?,
    })
}

// The times of the cores of these programs.
pub(crate) fn times_of(alloc: Global, programs: &[Program<'_>]) -> Result<Vec<u64>, AllocError> {
    let mut times = Vec::new(alloc);
    for program in programs {
        times.extend_from_slice(&program.times)?;
    }
    Ok(times)
}
