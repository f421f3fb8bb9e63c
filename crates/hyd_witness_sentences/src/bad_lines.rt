//! What is said of a line of a witness that can't be so.

use std::fmt::{self, Display, Formatter};

// What is said of a file that doesn't begin as a witness of the network.
const OTHER_HEADER: &str =
    "the witness isn't right in line 1: a witness of this network begins with HYDWIT 1, a scale, which is a power of two from 1 to 1024, and the numbers of the network's junctions, links and tanks. The file is no witness, or that of another network (docs/WITNESSES.md, \"Its lines\")";

/// A line of a witness that can't be so.
#[derive(Clone, Copy)]
pub struct BadLine {
    /// The line, counted from 1.
    pub line: u64,
}

impl Display for BadLine {
    fn fmt<W: fmt::Write>(&self, f: &mut Formatter<W>) -> fmt::Result {
        let line = self.line;
        if line <= 1 {
            return f.write_str(OTHER_HEADER);
        }
        let last = line.saturating_sub(1);
        write!(
            f,
            "the witness isn't right in line {line}: if the file ends at line {last} or within line {line}, it seems to be cut off, since it has no whole END line. Else the line can't stand there: it has another word, a number that is too large or has a zero or a plus in front, a line of a junction, a link or a tank is missing or too many, the END line says another number of periods, or the line stands behind it (docs/WITNESSES.md, \"Its lines\")"
        )
    }
}
