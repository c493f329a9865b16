use crate::conduct::Ended;
use crate::outcome::Refused;
use host::host::Host;
use meaning::roll::Entry;
use order::order::Order;
use run::run::Run;
use std::io;
use std::io::Write;
use store::Store;

/// Prints the roll, the store in rising id and the last line.
pub fn print<S: Store, H: Host, O: Order>(
    out: &mut impl Write,
    week: &Ended<S, H, O>,
) -> io::Result<()> {
    let Ended { run, outcome } = week;
    roll_lines(out, run.roll())?;
    store_lines(out, run)?;
    writeln!(out, "{outcome}")
}

/// Prints the roll, the store in rising id and the last line; of a refused reading that line alone.
pub fn print_week<S: Store, H: Host, O: Order>(
    out: &mut impl Write,
    week: &Result<Ended<S, H, O>, Refused>,
) -> io::Result<()> {
    // Kept as lines of its own: with a call of `print` in their place a run takes more instructions.
    match week {
        Err(refused) => writeln!(out, "{refused}"),
        Ok(Ended { run, outcome }) => {
            roll_lines(out, run.roll())?;
            store_lines(out, run)?;
            writeln!(out, "{outcome}")
        }
    }
}

fn roll_lines(out: &mut impl Write, roll: &[Entry]) -> io::Result<()> {
    for entry in roll {
        match entry {
            Entry::HandedIn(fact) => writeln!(out, "T {fact}")?,
            Entry::Fired(firing) => writeln!(out, "F {firing}")?,
        }
    }
    Ok(())
}

fn store_lines<S: Store, H: Host, O: Order>(
    out: &mut impl Write,
    run: &Run<S, H, O>,
) -> io::Result<()> {
    for fact in (1..run.next_id()).filter_map(|id| run.read(id)) {
        writeln!(out, "S {fact}")?;
    }
    Ok(())
}
