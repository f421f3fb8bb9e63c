//! What is said of a record of a certificate for which no period of a witness was found.

use std::fmt::{self, Display, Formatter};

/// A record of a certificate for which no period of a witness was found.
#[derive(Clone, Copy)]
pub struct UnfoundPeriod {
    /// The number of the period, counted from 0.
    pub period: u32,
}

impl Display for UnfoundPeriod {
    fn fmt<W: fmt::Write>(&self, f: &mut Formatter<W>) -> fmt::Result {
        let period = self.period;
        write!(
            f,
            "no witness was found for period {period}: near the middle of what the certificate leaves open there, no exact heads and flows were found that meet the laws, balance at each junction and let the period last as long as it must. That doesn't say that there are none. The certificate of a run with --tight or another --width begins the search elsewhere (docs/WITNESSES.md, \"When none is found\")"
        )
    }
}
