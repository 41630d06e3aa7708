// Shows what a proposer sent: a founding and blocks from standard input, a line for each command, in plain words.
// Places count from the first byte of their founding or block. Assumes nothing of the input.
#![tactic(auto)]

mod totals;
mod walk;

use anyhow::bail;
use blocks::{read_block, read_founding};
use commands::length;
use std::io::Read;
use std::{env, fmt, io};
use terms::Fault;
use totals::Totals;
use walk::Walk;
use wording::Report;

// How much to show of each founding and block: its commands and its totals, or its totals alone.
#[derive(Clone, Copy)]
enum Style {
    Commands,
    Totals,
}

// The input is cut into a founding and blocks.
#[derive(Clone, Copy)]
enum Piece {
    Founding,
    Block,
}

impl Piece {
    // The founding comes first.
    fn at(start: usize) -> Piece {
        if start == 0 {
            Piece::Founding
        } else {
            Piece::Block
        }
    }

    fn totals(self, bytes: &[u8]) -> Result<Totals, Fault> {
        match self {
            Piece::Founding => founding_totals(bytes),
            Piece::Block => block_totals(bytes),
        }
    }
}

// Memory for a founding and for a block is filled when it is made, and each takes 33 KB or more: so a function for each.
fn founding_totals(bytes: &[u8]) -> Result<Totals, Fault> {
    let founding = read_founding(bytes)?;
    Ok(Totals::of_founding(founding.grants()))
}

// A match, since `?` would fill the memory of a block once more.
fn block_totals(bytes: &[u8]) -> Result<Totals, Fault> {
    match read_block(bytes) {
        Ok(block) => Ok(Totals::of_block(block.volumes(), block.transactions())),
        Err(fault) => Err(fault),
    }
}

impl fmt::Display for Piece {
    fn fmt<W: fmt::Write>(&self, f: &mut fmt::Formatter<W>) -> fmt::Result {
        match *self {
            Piece::Founding => write!(f, "founding"),
            Piece::Block => write!(f, "block"),
        }
    }
}

// A line for each command, up to the first that cannot be read.
fn show_commands(rt: &HostRuntime, bytes: &[u8]) -> io::Result<()> {
    for line in Walk::over(bytes) {
        rt.println(line)?;
    }
    Ok(())
}

// One founding or block.
fn show_piece(rt: &HostRuntime, style: Style, start: usize, bytes: &[u8]) -> io::Result<()> {
    let piece = Piece::at(start);
    let n = bytes.len();
    println!(rt; "{piece} at byte {start} of the input, {n} bytes")?;
    if let Style::Commands = style {
        show_commands(rt, bytes)?;
    }
    match piece.totals(bytes) {
        Ok(totals) => rt.println(totals),
        Err(fault) => rt.println(Report(fault)),
    }
}

// The founding and the blocks in turn, until the bytes are used up or no further end can be found. Where a piece ends is
// known only when it is cut off, and its place is shown.
fn show_all(rt: &HostRuntime, style: Style, bytes: &[u8]) -> io::Result<()> {
    let mut start = 0;
    while start < bytes.len() {
        let rest = &bytes[start..];
        match length(rest) {
            Ok(n) => {
                show_piece(rt, style, start, &rest[..n])?;
                start += n;
            }
            Err(fault) => {
                println!(rt; "byte {start} of the input on: no end command")?;
                show_commands(rt, rest)?;
                return rt.println(Report(fault));
            }
        }
    }
    Ok(())
}

// What the arguments ask for.
fn asked(rt: &HostRuntime) -> anyhow::Result<Style> {
    let mut style = Style::Commands;
    for arg in env::args(rt)?.skip(1) {
        if arg.as_str() != "--totals" {
            bail!(
                "usage: inspect [--totals] < FILE: shows a founding and blocks; --totals leaves out the commands"
            );
        }
        style = Style::Totals;
    }
    Ok(style)
}

fn run(rt: &HostRuntime) -> anyhow::Result<()> {
    let style = asked(rt)?;
    let mut input = Vec::new(rt.alloc());
    rt.stdin().read_to_end(&mut input)?;
    show_all(rt, style, input.as_slice())?;
    Ok(())
}

fn main(rt: HostRuntime) -> anyhow::Result<()> {
    run(&rt)
}
