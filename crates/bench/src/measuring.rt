// How long reducing takes.
use anyhow::{Context, anyhow};
use compiling::compiled_sheet::CompiledSheet;
use pool::Pool;
use std::time::{CpuClock, Duration};
use terms::node::Node;

// Terms that are held in a pool, at these places.
#[derive(Clone, Copy)]
pub(crate) struct Stock<'p> {
    pub pool: &'p Pool<'p>,
    pub places: &'p [u16],
}

// The steps that were made in all, and the time that this took.
#[derive(Clone, Copy)]
pub(crate) struct Measured {
    pub steps: u64,
    pub spent: Duration,
}

// Loads the terms of a stock into a fresh pool and reduces them, so many times. Only the time of reducing is counted.
pub(crate) fn measure(
    rt: &(impl AllocGlobal + CpuClock),
    stock: &Stock<'_>,
    rules: &CompiledSheet,
    rounds: u32,
    allowed: u32,
) -> anyhow::Result<Measured> {
    let mut nodes = [Node::VACANT; crate::NODES];
    let mut roots = Vec::new(rt.alloc());
    let mut steps: u64 = 0;
    let mut spent = Duration::ZERO;
    for _ in 0..rounds {
        let mut pool = Pool::new(&mut nodes).context("no pool")?;
        roots.clear();
        for place in stock.places {
            let root = pool
                .load(stock.pool, *place)
                .map_err(|_| anyhow!("not loaded"))?;
            roots.push(root)?;
        }
        let start = rt.thread_cpu_time()?;
        for root in roots.iter() {
            let reduced = pool.reduce(rules, *root, allowed).context("not held")?;
            steps = steps.saturating_add(u64::from(reduced.steps));
        }
        spent = spent.saturating_add(rt.thread_cpu_time()?.saturating_sub(start));
    }
    Ok(Measured { steps, spent })
}
