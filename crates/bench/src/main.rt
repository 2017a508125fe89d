// Reduces tickets of several kinds many times, and says in how many steps. With the argument `speed` also how long a step takes, by
// the clock of the processor, which leaves out the time that other programs took; with `show` it writes sheets and tickets instead.
// With three numbers it does only the job of the first number, with at most so many steps a ticket as the second says, so many times
// as the third says.
#![tactic(auto)]

use anyhow::{Context, anyhow};
use compiling::compiled_sheet::CompiledSheet;
use jobs::{JOBS, Job};
use measuring::{Measured, Stock, measure};
use pool::Pool;
use reading::refusal::Refusal;
use sheet::Sheet;
use std::env;
use std::rt::Env;
use std::time::CpuClock;
use terms::node::Node;
use traversal::write::write_text;
use weighing::Weighing;

mod combs;
mod jobs;
mod measuring;
mod random;
mod tickets;

// How many nodes a pool has.
const NODES: usize = 16_384;

// How many bytes the text of a ticket can have.
const TEXT_BYTES: usize = 16_384;

// What is asked for.
#[derive(Clone, Copy)]
enum Wish {
    Counts,
    Speed,
    Tickets,
    Only(Chosen),
}

// The job of a number, with so many steps a ticket at most, so many times.
#[derive(Clone, Copy)]
struct Chosen {
    job: usize,
    steps: u32,
    rounds: u32,
}

// What the arguments ask for.
fn asked(rt: &(impl Env + Alloc)) -> anyhow::Result<Wish> {
    let mut args = env::args(rt)?.skip(1);
    let Some(first) = args.next() else {
        return Ok(Wish::Counts);
    };
    match first.as_str() {
        "speed" => Ok(Wish::Speed),
        "show" => Ok(Wish::Tickets),
        number => {
            let steps = args.next().context("how many steps?")?;
            let rounds = args.next().context("how many times?")?;
            Ok(Wish::Only(Chosen {
                job: number.parse()?,
                steps: steps.as_str().parse()?,
                rounds: rounds.as_str().parse()?,
            }))
        }
    }
}

// Reads a sheet that is sound.
fn read(text: &str, sheet: &mut Sheet) -> anyhow::Result<()> {
    let mut first = Weighing::missing();
    let mut second = Weighing::missing();
    sheet_reader::read(text.as_bytes(), sheet, &mut first, &mut second).map_err(|fault| anyhow!(
        "{}",
        Refusal::from(fault)
    ))
}

// Writes the sheet of a job, and its tickets.
fn show(rt: &impl Print, job: &Job, sheet: &Sheet, stock: &Stock<'_>) -> anyhow::Result<()> {
    println!(rt; "{}\n{}.", job.caption, job.sheet)?;
    let mut buffer = [0; TEXT_BYTES];
    for place in stock.places {
        let n = write_text(sheet.signature(), stock.pool, *place, &mut buffer).map_err(|_| anyhow!(
            "a ticket is too long"
        ))?;
        let text = std::str::from_utf8(buffer.get(..n).context("a ticket is too long")?)?;
        println!(rt; "{text}")?;
    }
    println!(rt)?;
    Ok(())
}

// Says how many steps a job took, and with `speed` how long a step.
fn tell(
    rt: &(impl Print + Eprint),
    caption: &str,
    rounds: u32,
    measured: Measured,
    speed: bool,
) -> anyhow::Result<()> {
    let Measured { steps, spent } = measured;
    println!(rt; "{caption}, {rounds} times: {steps} steps")?;
    if speed {
        let tenths = spent.as_nanos().saturating_mul(10) / u128::from(steps.max(1));
        eprintln!(rt; "{caption}: {}.{} ns a step", tenths / 10, tenths % 10)?;
    }
    Ok(())
}

// Does what is asked for with a job.
fn run(
    rt: &(impl Print + Eprint + AllocGlobal + CpuClock),
    job: &Job,
    wish: Wish,
) -> anyhow::Result<()> {
    let mut sheet = Sheet::new();
    read(job.sheet, &mut sheet)?;
    let mut nodes = [Node::VACANT; NODES];
    let mut pool = Pool::new(&mut nodes).context("no pool")?;
    let places = tickets::fill(rt.alloc(), &mut pool, sheet.signature(), job.kind)?;
    let stock = Stock {
        pool: &pool,
        places: places.as_slice(),
    };
    let (allowed, rounds, speed) = match wish {
        Wish::Tickets => return show(rt, job, &sheet, &stock),
        Wish::Counts => (u32::MAX, job.rounds, false),
        Wish::Speed => (u32::MAX, job.rounds, true),
        Wish::Only(Chosen { steps, rounds, .. }) => (steps, rounds, false),
    };
    let measured = measure(rt, &stock, &CompiledSheet::of(&sheet), rounds, allowed)?;
    tell(rt, job.caption, rounds, measured, speed)
}

fn main(rt: HostRuntime) -> anyhow::Result<()> {
    let wish = asked(&rt)?;
    for (number, job) in JOBS.iter().enumerate() {
        match wish {
            Wish::Only(chosen) if chosen.job != number => continue,
            _ => run(&rt, job, wish)?,
        }
    }
    Ok(())
}
