// The tickets of a job, put into a pool.
use crate::jobs::Kind;
use crate::{combs, random};
use anyhow::{Context, anyhow};
use pool::Pool;
use reader::ticket::read_ticket;
use reading::refusal::Refusal;
use signature::Signature;
use std::alloc::{AllocError, Global};
use terms::view::TermView;

// How many tickets are made at random.
const TICKETS: u32 = 8;

// Holds the tickets of a kind in a pool, and answers their places.
pub(crate) fn fill(
    heap: Global,
    pool: &mut Pool<'_>,
    signature: &Signature,
    kind: Kind,
) -> anyhow::Result<Vec<u16>> {
    let mut places = Vec::new(heap);
    match kind {
        Kind::Random(bytes) => {
            for seed in 0..TICKETS {
                let text = random::ticket(heap, bytes, seed)?;
                places.push(load_text(pool, signature, text.as_slice())?)?;
            }
        }
        Kind::LeftComb => places.push(load(pool, &combs::left().context("no room")?)?)?,
        Kind::RightComb => places.push(load(pool, &combs::right().context("no room")?)?)?,
        Kind::Letters => {
            let text = nested(heap, [(b"a", 600), (b"b", 600)])?;
            places.push(load_text(pool, signature, text.as_slice())?)?;
        }
        Kind::Doubling => {
            let text = nested(heap, [(b"twice", 10), (b"", 0)])?;
            places.push(load_text(pool, signature, text.as_slice())?)?;
        }
    }
    Ok(places)
}

fn load<V: TermView>(pool: &mut Pool<'_>, view: &V) -> anyhow::Result<u16> {
    pool.load(view, 0).map_err(|_| anyhow!("not loaded"))
}

fn load_text(pool: &mut Pool<'_>, signature: &Signature, text: &[u8]) -> anyhow::Result<u16> {
    let ticket = read_ticket(signature, text).map_err(|fault| anyhow!("{}", Refusal::from(fault)))?;
    load(pool, &ticket)
}

// Operators over each other, each so many times, over e.
fn nested(heap: Global, operators: [(&[u8], usize); 2]) -> Result<Vec<u8>, AllocError> {
    let mut text = Vec::new(heap);
    let mut depth: usize = 0;
    for (name, times) in operators {
        for _ in 0..times {
            text.extend_from_slice(name)?;
            text.push(b'(')?;
        }
        depth = depth.saturating_add(times);
    }
    text.push(b'e')?;
    for _ in 0..depth {
        text.push(b')')?;
    }
    Ok(text)
}
