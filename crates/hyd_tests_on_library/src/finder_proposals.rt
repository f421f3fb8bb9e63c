//! Vectors that a finder offers: those that pass the check are the record's, and those that don't change nothing.

use crate::vectors::{Vectors, finds};
use hyd_test_helpers::METRE;
use std::alloc::Global;
use std::test::Fail;

/// A reservoir at 100 m and a junction that takes nothing. The tight head above is 10^15 and 1, and the one below
/// 10^15 less 1.
pub(crate) const IDLE: &str =
    "[OPTIONS]\nUNITS CMD\nHEADLOSS C-M\n[JUNCTIONS]\nJ 0 0\n[RESERVOIRS]\nR 100\n[VALVES]\nV R J 304.8 TCV 100 0\n";

/// The tight vectors of that network.
pub(crate) const IDLE_TIGHT: Vectors = Vectors {
    upper: &[100 * METRE + 1],
    lower: &[100 * METRE - 1],
};

/// Two junctions behind a reservoir, of which the farther one takes 1,000 m^3 a day.
const PAIR: &str =
    "[OPTIONS]\nUNITS CMD\nHEADLOSS C-M\n[JUNCTIONS]\nA 0 0\nB 0 1000\n[RESERVOIRS]\nR 100\n\
    [VALVES]\nV R A 304.8 TCV 100 0\nW A B 304.8 TCV 100 0\n";

/// The tight vectors of the two junctions.
const PAIR_TIGHT: Vectors = Vectors {
    upper: &[998_718_316_158_263, 997_436_632_303_196],
    lower: &[998_718_316_110_583, 997_436_632_234_495],
};

/// What is offered, and the record's vectors where tight ones aren't asked for.
#[derive(Clone, Copy, Drop)]
struct Case {
    name: &'static str,
    offered: Vectors,
    found: Vectors,
}

const ONE: &[Case] = &[
    Case {
        name: "certificates that aren't tight",
        offered: Vectors {
            upper: &[100 * METRE + 2],
            lower: &[100 * METRE - 2],
        },
        found: Vectors {
            upper: &[100 * METRE + 2],
            lower: &[100 * METRE - 2],
        },
    },
    Case {
        name: "the least numbers",
        offered: Vectors {
            upper: &[i64::MIN],
            lower: &[i64::MIN],
        },
        found: IDLE_TIGHT,
    },
    Case {
        name: "the greatest numbers",
        offered: Vectors {
            upper: &[i64::MAX],
            lower: &[i64::MAX],
        },
        found: IDLE_TIGHT,
    },
    Case {
        name: "LOWER for UPPER",
        offered: Vectors {
            upper: &[100 * METRE - 1],
            lower: &[100 * METRE + 1],
        },
        found: IDLE_TIGHT,
    },
    Case {
        name: "a tick too far",
        offered: Vectors {
            upper: &[100 * METRE],
            lower: &[100 * METRE],
        },
        found: IDLE_TIGHT,
    },
    Case {
        name: "a certificate for UPPER alone",
        offered: Vectors {
            upper: &[100 * METRE + 2],
            lower: &[100 * METRE],
        },
        found: Vectors {
            upper: &[100 * METRE + 2],
            lower: &[100 * METRE - 1],
        },
    },
    Case {
        name: "a certificate for LOWER alone",
        offered: Vectors {
            upper: &[100 * METRE],
            lower: &[100 * METRE - 2],
        },
        found: Vectors {
            upper: &[100 * METRE + 1],
            lower: &[100 * METRE - 2],
        },
    },
    Case {
        name: "the certificate of a network with a demand",
        offered: Vectors {
            upper: &[998_718_316_144_933],
            lower: &[998_718_316_123_912],
        },
        found: IDLE_TIGHT,
    },
];

const TWO: &[Case] = &[
    Case {
        name: "each head a tick too far",
        offered: Vectors {
            upper: &[998_718_316_158_262, 997_436_632_303_195],
            lower: &[998_718_316_110_584, 997_436_632_234_496],
        },
        found: PAIR_TIGHT,
    },
    Case {
        name: "one head a tick too far",
        offered: Vectors {
            upper: &[998_718_316_158_263, 997_436_632_303_195],
            lower: &[998_718_316_110_584, 997_436_632_234_495],
        },
        found: PAIR_TIGHT,
    },
    Case {
        name: "those of the network whose nearer junction takes the water",
        offered: Vectors {
            upper: &[998_718_318_411_975, 998_718_318_411_976],
            lower: &[998_718_313_856_869, 998_718_313_856_868],
        },
        found: PAIR_TIGHT,
    },
    Case {
        name: "those of the network that takes 999.99 m^3 a day, of which UPPER is a certificate here",
        offered: Vectors {
            upper: &[998_718_341_791_812, 997_436_683_570_294],
            lower: &[998_718_341_744_132, 997_436_683_501_594],
        },
        found: Vectors {
            upper: &[998_718_341_791_812, 997_436_683_570_294],
            lower: &[998_718_316_110_583, 997_436_632_234_495],
        },
    },
    Case {
        name: "those of a network of one junction",
        offered: Vectors {
            upper: &[998_718_316_144_933],
            lower: &[998_718_316_123_912],
        },
        found: PAIR_TIGHT,
    },
    Case {
        name: "those of a network of three junctions",
        offered: Vectors {
            upper: &[5 * METRE + 1, 124_999_999_377_089, 249_999_998_754_178],
            lower: &[5 * METRE - 1, 124_999_999_377_088, 249_999_998_754_177],
        },
        found: PAIR_TIGHT,
    },
];

/// The name of the first offer with which something else is found than is to be.
fn first_other(alloc: Global, text: &str, cases: &[Case], tight: Option<Vectors>) -> &'static str {
    for case in cases {
        let wanted = tight.unwrap_or(case.found);
        if !finds(alloc, text, tight.is_some(), case.offered, wanted) {
            return case.name;
        }
    }
    "none"
}

#[test]
fn tight_vectors_are_those_of_any_finder(rt: HostRuntime) -> Result<(), Fail> {
    assert_eq!(rt;
        first_other(rt.alloc(), IDLE, ONE, Some(IDLE_TIGHT)),
        "none"
    );
    assert_eq!(rt;
        first_other(rt.alloc(), PAIR, TWO, Some(PAIR_TIGHT)),
        "none"
    );
    Ok(())
}

#[test]
fn offers_that_pass_are_used_and_others_change_nothing(rt: HostRuntime) -> Result<(), Fail> {
    assert_eq!(rt; first_other(rt.alloc(), IDLE, ONE, None), "none");
    assert_eq!(rt; first_other(rt.alloc(), PAIR, TWO, None), "none");
    Ok(())
}
