//! The pages of help.

pub(crate) const HELP: &str = "simulates pressurised water networks from EPANET input files,
and proves the intervals that it prints.

  hyd run NET CERT [--sweeps N] [--width W] [--tight] [--flows IDS] [--slack N]
          [--spread FILE]
      runs the network in NET, writes the certificate CERT, prints the report
      hyd run examples/net1.inp net1.cert
  hyd check NET CERT [--spread FILE]
      checks a certificate, whoever wrote it, and prints the same report
      hyd check examples/net1.inp net1.cert
  hyd gen SEED JUNCTIONS NET CERT
      makes a network from a seed, runs it, and prints a summary
      hyd gen 7 100 net.inp net.cert
  hyd fire NET J P [--sweeps N] [--spread FILE]
      prints how much more may be drawn at junction J at the start, its pressure
      staying above P
      hyd fire examples/net1.inp 22 20
  hyd closures NET P [--sweeps N] [--spread FILE]
      closes each pipe alone at the start, and prints the junctions that aren't
      shown to keep the pressure P
      hyd closures examples/net1.inp 20
  hyd witness NET CERT OUT
      looks for a witness of a certificate, exact heads and flows that are a
      history of the network, and writes it to OUT
      hyd witness examples/net1.inp net1.cert net1.wit
  hyd meet NET FILE
      checks a witness: exact heads and flows, period by period
      hyd meet examples/one-valve.inp examples/one-valve.wit

N of --sweeps is 200 where it isn't given, W is 0.01 metres, N of --slack 0.
hyd help COMMAND explains the words of a command.

Status 0: done. 2: the words aren't a command. 5: NET, or FILE of --spread, is
refused. 6: something can't be decided, a period of FILE isn't met, or no
witness was found. 7: rounds are spent. 8: a demand is out of range. 9: CERT or
FILE isn't right. 1: memory ran out. 3: a file couldn't be read. 4: one couldn't
be written. 10: a write took nothing.

README.md: how to read a report. docs/ANSWERS.md: each line and status.
docs/REFUSALS.md: what NET may have. docs/CERTIFICATES.md: what CERT is worth.
docs/WITNESSES.md: what OUT and FILE of meet are worth.
docs/SPREADS.md: what FILE of --spread has.";

pub(crate) const HELP_OF_RUN: &str =
    "run NET CERT [--sweeps N] [--width W] [--tight] [--flows IDS] [--slack N]
    [--spread FILE]

Runs the network, writes the certificate, prints the report.

  NET            the network: an EPANET input file with Hazen-Williams or
                 Chezy-Manning losses (docs/REFUSALS.md)
  CERT           the certificate. A file that is there is overwritten where it
                 is empty or a certificate
  --sweeps N     at most N rounds for each vector where the gradient method
                 finds none: 0 to 100000, else 200
  --width W      how wide intervals of heads may become, in metres: above 0 to
                 1000, else 0.01
  --tight        the tightest certificate on the grid of 10^-13 metres
  --flows IDS    up to 16 links between junctions, parted by commas without
                 spaces: tighter intervals of their flows, in FLOW lines
  --slack N      goes on where a period may end in any of up to N seconds more,
                 which an event of a tank leaves open: 0 to 86400, else 0. Runs
                 of weeks take 3600 (docs/LONG_RUNS.md). Not with --flows
  --spread FILE  demands, emitters, heads of reservoirs and levels of tanks are
                 known within limits only, which the rows of FILE give
                 (docs/SPREADS.md): what is printed holds of every network and
                 every history within them. Not with --flows

  hyd run examples/net1.inp net1.cert

Status 0: done. 5: NET, FILE or a name of --flows is refused, and CERT stays as
it was. 6, 7, 8: the run stopped, and what is printed above the last line holds.
1, 3, 4, 10: memory or files. docs/ANSWERS.md: each line of the report.";

pub(crate) const HELP_OF_CHECK: &str = "check NET CERT [--spread FILE]

Checks a certificate record by record, and prints the report of all records
that are right. It writes nothing.

  NET            the network
  CERT           the certificate, whoever wrote it
  --spread FILE  CERT is to be that of a run for the limits that the rows of
                 FILE give (docs/SPREADS.md)

  hyd check examples/net1.inp net1.cert

Status 0: all records are right, up to the duration (DONE) or as far as they go
(PARTIAL). 9: one isn't, and the last line says which. 5: NET or FILE is
refused. 1, 3, 4, 10: memory or files. docs/CERTIFICATES.md: what a certificate is worth.";

pub(crate) const HELP_OF_GEN: &str = "gen SEED JUNCTIONS NET CERT

Makes a network, runs it, and prints a summary.

  SEED       which network: 0 to 2147483647
  JUNCTIONS  how many junctions it has: 1 to 10000
  NET        the network, which is written: an input file of this name that is
             there is OVERWRITTEN. Any other file stays as it is
  CERT       the certificate, which is written. A file that is there is
             overwritten where it is empty or a certificate

  hyd gen 7 100 net.inp net.cert

Status 0: done. 6, 7, 8: the run stopped. 1, 3, 4, 10: memory or files.";

pub(crate) const HELP_OF_FIRE: &str = "fire NET J P [--sweeps N] [--spread FILE]

Prints FIRE J a b for the first period: with at most a more drawn at J its
pressure is above P, and from b on it is below P. NONE stands for a where it
isn't above P even without. Nothing is written.

  NET            the network
  J              the junction
  P              the pressure in the unit of NET, at most 10000 in magnitude;
                 one below 0 stands behind a word --
  --sweeps N     at most N rounds for each vector: 0 to 100000, else 200
  --spread FILE  what is printed holds of every network within the limits that
                 the rows of FILE give (docs/SPREADS.md)

  hyd fire examples/net1.inp 22 20

Status 0: done, also where NOCERT or ROUNDS stands for a number. 5: NET or FILE
is refused, or NET has no junction J. 8: a demand is out of range. 1, 3, 4, 10:
memory or files.";

pub(crate) const HELP_OF_CLOSURES: &str = "closures NET P [--sweeps N] [--spread FILE]

Closes each pipe alone in the first period, and prints SHUT and its ID, and
below it each junction that isn't shown to keep the pressure P: LOW where it is
at most P, else UNSURE, NOCERT or ROUNDS. It writes nothing.

  NET            the network
  P              the pressure in the unit of NET, at most 10000 in magnitude;
                 one below 0 stands behind a word --
  --sweeps N     at most N rounds for each vector: 0 to 100000, else 200
  --spread FILE  what is printed holds of every network within the limits that
                 the rows of FILE give (docs/SPREADS.md)

  hyd closures examples/net1.inp 20

Status 0: done. 5: NET or FILE is refused. 8: a demand is out of range. 1, 3, 4,
10: memory or files.";

pub(crate) const HELP_OF_WITNESS: &str = "witness NET CERT OUT

Looks for a witness of a certificate: for each period exact heads, flows and
levels, so that all of them are a history of the network. It prints WITNESS and
the number of periods, or NOWITNESS and the first period for which it found
none. That doesn't say that there is none.

  NET   the network
  CERT  its certificate, which is checked as by hyd check: a file, since it may
        be read three times
  OUT   the witness, which is written. A file that is there is overwritten where
        it is empty, a witness or a certificate other than CERT

  hyd witness examples/net1.inp net1.cert net1.wit

Status 0: found (WITNESS). 6: none found for a period (NOWITNESS). 9: CERT isn't
right. With 6 and 9 OUT has the periods before it. 5: NET is refused, and OUT
stays as it was. 1, 3, 4, 10: memory or files.
docs/WITNESSES.md: what OUT has, and what it is worth.";

pub(crate) const HELP_OF_MEET: &str = "meet NET FILE

Checks a witness period by period: whether what it says in exact numbers is a
history of the network. It prints MEETS and the number of periods, or UNMET and
the first period that isn't met, with the clause that fails. It writes nothing.

  NET   the network
  FILE  the witness, whoever wrote it: for each period the heads, flows, demand
        flows and emitter flows, and the levels and volumes of tanks

  hyd meet examples/one-valve.inp examples/one-valve.wit

Status 0: all periods are met (MEETS). 6: one isn't (UNMET). 9: a line of FILE
can't be so (BADWIT). 5: NET is refused. 1, 3, 4, 10: memory or files.
docs/WITNESSES.md: what FILE has, and what it is worth.";
