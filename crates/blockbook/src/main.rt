//! `blockbook`: reads a week file from standard input and prints what was done.
//!
//! A flat store of 1,024 rows, the host of counts and the plain order. It reads no more than the
//! first 34,691 bytes, which decide; the exit status is 0 whenever a whole answer was printed.
#![tactic(auto)]

use anyhow::anyhow;
use facts::BLANK;
use host::counts::Counts;
use order::plain::Plain;
use report::conduct::{Unread, conduct};
use report::print::print_week;
use std::alloc::Global;
use std::io::{BufWriter, Read, Write};
use store::Store;
use store::flat::Flat;

/// How many bytes of a file decide.
const DECIDING_BYTES: usize = 34_691;

/// How many rows the store has.
const ROWS: usize = 1024;

// The first bytes of an input, as many as decide, or all of them.
// Kept as a loop of its own: each read has room for all that is left, so that no message of a socket is cut.
fn first_bytes(heap: Global, input: &mut impl Read) -> anyhow::Result<Vec<u8>> {
    let mut bytes = vec![in heap; 0u8; DECIDING_BYTES]?;
    let mut filled = 0;
    for _ in 0..=DECIDING_BYTES {
        if filled >= bytes.len() {
            break;
        }
        let count = input.read(&mut bytes[filled..])?;
        if count == 0 {
            break;
        }
        filled += count;
    }
    bytes.truncate(filled);
    Ok(bytes)
}

fn run(rt: &HostRuntime) -> anyhow::Result<()> {
    let heap = rt.alloc();
    let file = first_bytes(heap, &mut rt.stdin())?;
    let rows = vec![in heap; BLANK; ROWS]?;
    let week = match conduct(heap, &file, Flat::new(rows), Counts, Plain) {
        Ok(ended) => Ok(ended),
        Err(Unread::Refused(refused)) => Err(refused),
        Err(Unread::NoMemory) => return Err(anyhow!("no memory")),
    };
    let mut out = BufWriter::new(heap, rt.stdout())?;
    print_week(&mut out, &week)?;
    out.flush()?;
    Ok(())
}

fn main(rt: HostRuntime) -> anyhow::Result<()> {
    run(&rt)
}
