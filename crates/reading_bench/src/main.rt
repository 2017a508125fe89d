// Reads large sheets and large tickets many times, and says what was read; with an argument also how fast, by the clock of the
// processor, which leaves out the time that other programs took.
#![tactic(auto)]

use anyhow::anyhow;
use reader::ticket::read_ticket;
use reading::refusal::Refusal;
use sheet::Sheet;
use signature::Signature;
use std::time::{CpuClock, Duration};
use std::{env, io};
use weighing::Weighing;

mod texts;

// How often a text is read.
const TIMES: u32 = 500;

// Reads a text that often as a sheet.
fn read_sheets(text: &[u8], sheet: &mut Sheet) -> Result<(), Refusal> {
    let mut first = Weighing::missing();
    let mut second = Weighing::missing();
    for _ in 0..TIMES {
        sheet_reader::read(text, sheet, &mut first, &mut second)?;
    }
    Ok(())
}

// Reads a text that often as a ticket, and answers how many symbols it has.
fn read_tickets(signature: &Signature, text: &[u8]) -> Result<usize, Refusal> {
    let mut symbols = 0;
    for _ in 0..TIMES {
        symbols = read_ticket(signature, text)?.len();
    }
    Ok(symbols)
}

// Says, if it is asked for, how many megabytes a second were read: bytes a microsecond.
fn tell_speed(
    rt: &(impl Eprint + CpuClock),
    asked: bool,
    bytes: usize,
    start: Duration,
) -> io::Result<()> {
    let spent = rt
        .thread_cpu_time()?
        .saturating_sub(start)
        .as_micros()
        .max(1);
    if asked {
        let speed = u128::from(TIMES) * bytes as u128 / spent;
        eprintln!(rt; "{speed} MB/s")?;
    }
    Ok(())
}

fn main(rt: HostRuntime) -> anyhow::Result<()> {
    let asked = env::args(&rt)?.count() > 1;
    // names of 12 and of 2 bytes, and on how many levels tickets of 4,096 bytes have them
    let kinds: [(&[u8], usize); 2] = [(b"operationab", 102), (b"o", 409)];
    for (front, levels) in kinds {
        let text = texts::sheet(rt.alloc(), front)?;
        let mut sheet = Sheet::new();
        let start = rt.thread_cpu_time()?;
        read_sheets(text.as_slice(), &mut sheet).map_err(|refusal| anyhow!("{refusal}"))?;
        let bytes = text.len();
        println!(rt;
            "{TIMES} times a sheet of {bytes} bytes and {} rules",
            sheet.len()
        )?;
        tell_speed(&rt, asked, bytes, start)?;
        let text = texts::ticket(rt.alloc(), front, levels)?;
        let start = rt.thread_cpu_time()?;
        let symbols = read_tickets(sheet.signature(), text.as_slice()).map_err(|refusal| anyhow!(
            "{refusal}"
        ))?;
        let bytes = text.len();
        println!(rt; "{TIMES} times a ticket of {bytes} bytes and {symbols} symbols")?;
        tell_speed(&rt, asked, bytes, start)?;
    }
    Ok(())
}
