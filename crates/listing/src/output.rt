// Lines written out, many to a write. What is written is tested, not proved.
use crate::line::Line;
use std::alloc::Global;
use std::io;
use std::io::{BufWriter, Write};

// Writes the lines, each with a line break.
pub fn write_lines<W: Write + Drop>(alloc: Global, output: W, lines: &[Line]) -> io::Result<()> {
    let mut buffer = BufWriter::new(alloc, output)?;
    for line in lines {
        buffer.writeln(*line)?;
    }
    buffer.flush()
}
