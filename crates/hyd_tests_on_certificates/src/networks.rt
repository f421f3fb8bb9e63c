//! Small networks with their tight vectors by an independent program.
#![tactic(auto)]

use hyd_spec_certificates::{Problem, Side, StatusWord};
use hyd_test_helpers::METRE;

/// The tight vector of a problem and side.
pub(crate) type Row = (Problem, Side, &'static [i64]);

/// A network in a period.
#[derive(Drop)]
pub(crate) struct Network {
    pub(crate) text: &'static str,
    pub(crate) time: u32,
    /// The levels of its tanks, from one to another.
    pub(crate) levels: &'static [(i64, i64)],
    pub(crate) rows: &'static [Row],
    pub(crate) bounds: Option<Bounds>,
}

/// A number, and the least and the greatest flow.
pub(crate) type Flow = (u32, i128, i128);

/// What lies between the tight vectors: the words of links, and what flows in links, out of junctions and into tanks.
#[derive(Drop)]
pub(crate) struct Bounds {
    pub(crate) words: &'static [(u32, StatusWord)],
    pub(crate) flows: &'static [Flow],
    pub(crate) outflows: &'static [Flow],
    pub(crate) inflows: &'static [Flow],
}

/// A demand behind two throttle control valves.
const TWO_JUNCTIONS: &str = "[OPTIONS]\nUNITS CMD\nHEADLOSS C-M\n\
    [JUNCTIONS]\nA 0 0\nB 0 1000\n\
    [RESERVOIRS]\nR 100\n\
    [VALVES]\nV R A 304.8 TCV 100 0\nW A B 304.8 TCV 100 0\n";

/// A demand that halves after two hours.
const TWO_PIPES: &str = "[JUNCTIONS]\nJ1 0 1\nJ2 0 1 1\n\
    [RESERVOIRS]\nR 100\n\
    [PIPES]\nP1 R J1 1000 12 0.01 0 Open\nP2 J1 J2 1000 12 0.01 0 Open\n\
    [PATTERNS]\n1 1.0 0.5\n\
    [TIMES]\nDuration 2:00\nHydraulic Timestep 1:00\nPattern Timestep 2:00\n\
    [OPTIONS]\nUnits CFS\nHeadloss C-M\nPattern 1\n";

static NETWORKS: [Network; 16] = [
    Network {
        text: "[OPTIONS]\nunits LPS\nHeadloss C-M\nDEMAND MULTIPLIER 1\n\
        [JUNCTIONS]\nJ0 3e0 0.02694 P0\nJ1 15 -0.01347\n\
        [RESERVOIRS]\nR100 60\n\
        [PIPES]\nP301 R100 J0 1000 100. .011 1 open\n\
        P302 J0 R100 100.000000000000E+1 300. 0.01 open\nP303 J0 J1 +100 100 0.01 0.5 open\n\
        P304 R100 J1 10 100 .011 OPEN\n\
        [VALVES]\nV305 J1 J0 100 Fcv 0\n\
        [PATTERNS]\nP0 1 +1 0.100000000000E+1 1\nP0 0.1\n",
        time: 0,
        levels: &[],
        rows: &[
            (
                Problem::Main,
                Side::Upper,
                &[599_999_997_148_583, 600_000_002_066_825],
            ),
            (
                Problem::Main,
                Side::Lower,
                &[599_999_997_148_537, 600_000_002_066_761],
            ),
        ],
        bounds: Some(Bounds {
            words: &[
                (0, StatusWord::Open),
                (1, StatusWord::Open),
                (2, StatusWord::Open),
                (3, StatusWord::Open),
                (4, StatusWord::Active),
            ],
            flows: &[],
            outflows: &[],
            inflows: &[],
        }),
    },
    Network {
        text: "[OPTIONS]\nunits mgd\nHeadloss C-M\nPATTERN none\n\
        [JUNCTIONS]\nJ0 13.1233596e0 0.0009645\nJ1 75.4593176\n\
        [RESERVOIRS]\nR100 131.233596\n\
        [TANKS]\nT200 144.356955 16.4042 0.0000 32.8084 8\n\
        T201 111.548556 16.4042 0.0000 32.8084 8\n\
        [PIPES]\nP301 J0 R100 3280.8399 11.8110236 0.013 0 open\n\
        P302 J1 T200 +3280.8399 3.93700787 .011 open\nP304 T201 T200 3280.8399 3.93700787 0.01 1\n\
        [PUMPS]\nU305 T200 T201 HEAD C4\n\
        [VALVES]\nV303 T201 J1 11.8110236 Tcv 5000 1\n\
        [CURVES]\nC4 0.002893 196.850394\n",
        time: 0,
        levels: &[
            (33_333_334_400_001, 50_000_001_600_000),
            (33_333_334_400_001, 50_000_001_600_000),
        ],
        rows: &[
            (
                Problem::Main,
                Side::Upper,
                &[399_999_981_521_401, 406_019_546_311_105],
            ),
            (
                Problem::Main,
                Side::Lower,
                &[399_999_981_521_314, 389_352_878_542_231],
            ),
            (
                Problem::Pinned(0),
                Side::Upper,
                &[399_999_981_521_401, 403_349_621_918_431],
            ),
            (
                Problem::Pinned(0),
                Side::Lower,
                &[399_999_981_521_314, 392_022_802_891_495],
            ),
            (
                Problem::Pinned(1),
                Side::Upper,
                &[399_999_981_521_401, 392_022_803_505_950],
            ),
            (
                Problem::Pinned(1),
                Side::Lower,
                &[399_999_981_521_314, 403_349_621_393_083],
            ),
        ],
        bounds: None,
    },
    Network {
        text: "[OPTIONS]\nunits LPS\nHEADLOSS C-M\nDEMAND model PDA\n\
        [JUNCTIONS]\nJ0 3 0 1\nJ1 16 -0.09272 1\n\
        [RESERVOIRS]\nR100 40\nR101 55.5\n\
        [TANKS]\nT200 40 1.33333333 1 2 3\n\
        [PIPES]\nP301 J0 R100 10 100 0.013 +0.5 open\nP303 T200 J1 100 50 0.013 0.5 open\n\
        [PUMPS]\nU302 T200 J0 Head C1\n\
        [EMITTERS]\nJ0 0.01854\n\
        [CURVES]\nC1 0.5563e0 60\n\
        [PATTERNS]\n1 0.1\n\
        [STATUS]\nU302 OPEN\n",
        time: 0,
        levels: &[(13_333_333_333_334, 15_000_000_000_000)],
        rows: &[
            (
                Problem::Main,
                Side::Upper,
                &[400_042_300_074_898, 415_001_296_374_900],
            ),
            (
                Problem::Main,
                Side::Lower,
                &[400_042_203_911_219, 413_334_629_681_694],
            ),
            (
                Problem::Pinned(0),
                Side::Upper,
                &[400_042_203_921_289, 413_334_629_708_234],
            ),
            (
                Problem::Pinned(0),
                Side::Lower,
                &[400_042_300_064_816, 415_001_296_348_360],
            ),
        ],
        bounds: None,
    },
    Network {
        text: "[OPTIONS]\nUNITS cmh\nHeadloss c-m\n\
        [JUNCTIONS]\nJ0 6 0.001542\nJ1 22 +0.001542\n\
        [RESERVOIRS]\nR100 40\nR101 5.550000000000E+1\n\
        [TANKS]\nT200 33e0 +1 1 +5 0.100000000000E+1\n\
        [PIPES]\nP301 J0 R101 10 50 0.013 OPEN\nP303 J0 J1 10e0 30.000000000000E+1 0.01 open\n\
        P304 T200 R101 100 100. 0.013 1\nP305 J0 J1 10 50e0 0.013\n\
        [VALVES]\nV302 J0 R101 100 TCV 0 0e0\n\
        [DEMANDS]\nJ1 -0.0003085\nJ1 -0.0003085\nJ0 0.001542e0\n\
        [EMITTERS]\nJ0 .0001542\n\
        [STATUS]\nP304 Open\n",
        time: 0,
        levels: &[(23_333_333_333_334, 3 * METRE)],
        rows: &[
            (
                Problem::Main,
                Side::Upper,
                &[554_999_999_999_942, 554_999_999_999_944],
            ),
            (
                Problem::Main,
                Side::Lower,
                &[554_999_999_999_935, 554_999_999_999_936],
            ),
            (
                Problem::Pinned(0),
                Side::Upper,
                &[554_999_999_999_942, 554_999_999_999_944],
            ),
            (
                Problem::Pinned(0),
                Side::Lower,
                &[554_999_999_999_935, 554_999_999_999_936],
            ),
        ],
        bounds: None,
    },
    Network {
        text: "[OPTIONS]\nUNITS LPM\nheadloss C-M\nPATTERN none\n\
        [JUNCTIONS]\nJ0 21 0.4656\nJ1 20 0.046560000000E+1\n\
        [RESERVOIRS]\nR100 50\n\
        [TANKS]\nT200 34. +0.5 0 1 1e0\n\
        [PIPES]\nP301 R100 J0 10 +300 0.01 0.000000000000E+1 open\n\
        P302 R100 J0 1000 5.000000000000E+1 .011 open\nP303 J0 J1 10 100e0 .011 10 open\n\
        P304 R100 T200 1000 100 .011 10\n\
        [VALVES]\nV305 T200 R100 30.000000000000E+1 FCV 0.2328 2.000000000000E+1\n\
        [DEMANDS]\nJ1 -0.09312 1\nJ1 .4656\n\
        [PATTERNS]\n1 .1 1e0 +0.1 0.000000000000E+1 1e0\nP1 2\n",
        time: 0,
        levels: &[(3_333_333_333_334, 5_000_000_000_000)],
        rows: &[
            (
                Problem::Main,
                Side::Upper,
                &[499_999_999_985_092, 499_999_993_663_938],
            ),
            (
                Problem::Main,
                Side::Lower,
                &[499_999_999_985_091, 499_999_993_663_778],
            ),
            (
                Problem::Pinned(0),
                Side::Upper,
                &[499_999_999_985_092, 499_999_993_663_938],
            ),
            (
                Problem::Pinned(0),
                Side::Lower,
                &[499_999_999_985_091, 499_999_993_663_778],
            ),
        ],
        bounds: Some(Bounds {
            words: &[
                (0, StatusWord::Open),
                (1, StatusWord::Open),
                (2, StatusWord::Open),
                (3, StatusWord::Open),
                (4, StatusWord::Open),
            ],
            flows: &[],
            outflows: &[],
            inflows: &[],
        }),
    },
    Network {
        text: "[OPTIONS]\nUnits lps\nheadloss C-M\nPATTERN P0\n\
        [JUNCTIONS]\nJ0 26e0 0.000127500000E+1\nJ1 28 .0006374 P1\nJ2 16 0 P1\n\
        [RESERVOIRS]\nR100 60\n\
        [PIPES]\nP302 J0 R100 1000 50 .011 0.000000000000E+1\nP304 J0 J2 100 300 0.013 open\n\
        [VALVES]\nV301 R100 J0 100 GPV G0\nV303 R100 J1 300 TCV 0 0\n\
        V305 J2 J1 100 TCV 0 0.100000000000E+1\n\
        [DEMANDS]\nJ2 -0.0001275\n\
        [CURVES]\nG0 0 0\nG0 0.000637 1\nG0 0.001912 7\n\
        [PATTERNS]\n1 +0 1.25 2e0 1 0.5\nP1 1.25 0.100000000000E+1 1.25e0 +0.5 0.1\n\
        P2 1 1 +2 0e0 1.25\nS 0.8 0.8 1\n",
        time: 0,
        levels: &[],
        rows: &[
            (
                Problem::Main,
                Side::Upper,
                &[599_999_999_997_944, 60 * METRE - 208, 60 * METRE - 331],
            ),
            (
                Problem::Main,
                Side::Lower,
                &[599_999_999_997_940, 60 * METRE - 210, 60 * METRE - 334],
            ),
        ],
        bounds: None,
    },
    Network {
        text: "[OPTIONS]\nUNITS LPS\nheadloss C-M\n\
        [JUNCTIONS]\nJ0 8\nJ1 9e0\n\
        [RESERVOIRS]\nR100 50\n\
        [TANKS]\nT200 41 2 1. 2e0 8\nT201 34 3.33333333 +0 +10 20\n\
        [PIPES]\nP302 R100 J0 10 100 .011 open\nP303 T201 J1 1.000000000000E+1 +50 0.01 open\n\
        P304 R100 T200 1000. 300 0.01 1 CV\n\
        [VALVES]\nV301 T200 J0 100 TCV 2.5 1\nV305 R100 T201 100e0 GPV G4\n\
        [EMITTERS]\nJ0 0.3383\nJ1 0.3383\n\
        [CURVES]\nG4 0 0\nG4 0.338300 1\nG4 1.014900 7\n",
        time: 0,
        levels: &[
            (13_333_333_333_334, 15_000_000_000_000),
            (33_333_333_333_334, 50_000_000_000_000),
        ],
        rows: &[
            (
                Problem::Main,
                Side::Upper,
                &[455_772_978_578_773, 386_980_619_467_506],
            ),
            (
                Problem::Main,
                Side::Lower,
                &[454_813_929_371_031, 370_481_695_867_398],
            ),
            (
                Problem::Pinned(0),
                Side::Upper,
                &[454_813_929_483_000, 386_980_619_467_506],
            ),
            (
                Problem::Pinned(0),
                Side::Lower,
                &[455_772_978_468_045, 370_481_695_867_398],
            ),
            (
                Problem::Pinned(1),
                Side::Upper,
                &[455_772_978_578_773, 370_481_696_169_512],
            ),
            (
                Problem::Pinned(1),
                Side::Lower,
                &[454_813_929_371_031, 386_980_619_156_632],
            ),
        ],
        bounds: Some(Bounds {
            words: &[
                (0, StatusWord::Open),
                (1, StatusWord::Open),
                (2, StatusWord::Open),
                (3, StatusWord::Active),
                (4, StatusWord::Open),
            ],
            flows: &[
                (0, 35_149_322_398, 35_528_379_570),
                (1, -3_386_444_857, 4_049_877_619),
                (2, 93_336_657_054, 94_368_032_662),
                (3, -34_248_981_422, -32_833_654_258),
                (4, 1_266_595_190, 1_428_979_210),
            ],
            outflows: &[
                (0, 1_789_466_599, 1_791_754_562),
                (1, 1_547_989_451, 1_592_868_047),
            ],
            inflows: &[
                (0, 126_694_224_903, 128_106_945_621),
                (1, -326_272_888, -119_010_210),
            ],
        }),
    },
    Network {
        text: "[OPTIONS]\nUnits CFS\nHeadloss C-M\nDemand Model pda\nMINIMUM PRESSURE 0e0\n\
        Required Pressure 0.7108\n\
        [JUNCTIONS]\nJ0 45.9317585e0 0.0002589 P0\nJ1 6.56167979 -0.0001295\n\
        J2 49.2125984e0 -0.0001295\n\
        [RESERVOIRS]\nR100 131.233596\n\
        [PIPES]\nP302 R100 J0 328.08399 11.8110236 0.013 1. open\n\
        P304 R100 J2 328.08399 3.93700787 0.013 10 open\n\
        [VALVES]\nV301 R100 J0 11.8110236e0 TCV 2.5 20\nV303 R100 J1 11.8110236 FCV .0002589 20\n\
        V305 J1 J2 3.93700787 TCV 5000\n\
        [DEMANDS]\nJ2 0.00007768 P0\n\
        [PATTERNS]\nP0 0.5\n",
        time: 0,
        levels: &[],
        rows: &[
            (
                Problem::Main,
                Side::Upper,
                &[
                    400_000_000_606_408,
                    400_000_000_633_840,
                    400_000_000_158_977,
                ],
            ),
            (
                Problem::Main,
                Side::Lower,
                &[
                    400_000_000_606_407,
                    400_000_000_633_837,
                    400_000_000_158_878,
                ],
            ),
        ],
        bounds: None,
    },
    Network {
        text: "[OPTIONS]\nUnits Cmh\nHeadloss c-m\nPATTERN P1\n\
        [JUNCTIONS]\nJ0 16 0.002196000000E+1\nJ1 +26 0 P2\nJ2 0 0\nJ3 12e0 0.02196 1\n\
        [RESERVOIRS]\nR100 5.000000000000E+1\n\
        [PIPES]\nP302 J0 R100 100 300e0 .011 0. open\nP303 R100 J1 1000 50 .011 0.5\n\
        P304 R100 J2 1000 100 0.01 0e0 open\nP305 J2 R100 +1000 300 0.01 open\n\
        [VALVES]\nV301 R100 J0 100. gpv G0\nV306 R100 J3 +300 FCV 0.02196 20\n\
        V307 R100 J3 300 tcv 2.5\n\
        [CURVES]\nG0 0 0\nG0 0.021960 1.\nG0 0.065880 +7\n\
        [PATTERNS]\n1 +1 1 0e0 0 .1\nP1 2 .5\nP1 0.5 0.1\nP2 0.5\nP2 1\nS 1.2 1.2 0.8\n",
        time: 0,
        levels: &[],
        rows: &[
            (
                Problem::Main,
                Side::Upper,
                &[
                    499_999_999_886_096,
                    50 * METRE + 1,
                    50 * METRE + 1,
                    499_999_999_994_824,
                ],
            ),
            (
                Problem::Main,
                Side::Lower,
                &[
                    499_999_999_886_093,
                    50 * METRE - 1,
                    50 * METRE - 1,
                    499_999_999_994_823,
                ],
            ),
        ],
        bounds: None,
    },
    Network {
        text: "[OPTIONS]\nunits lpm\nheadloss c-m\ndemand model pda\nMINIMUM PRESSURE +0\n\
        Required Pressure 20\n\
        [JUNCTIONS]\nJ0 28 0e0 P0\nJ1 7 .1657\n\
        [RESERVOIRS]\nR100 60\n\
        [PIPES]\nP302 R100 J0 10 300 .011 1 CV\nP303 R100 J1 10. 100 .011 open\n\
        [PUMPS]\nU304 R100 J1 PATTERN S SPEED 0.9 Head C3\n\
        [VALVES]\nV301 R100 J0 100 Gpv G0\n\
        [EMITTERS]\nJ1 .01657\nJ1 0.1657\nJ1 0.000000000000E+1\n\
        [CURVES]\nG0 0 0\nG0 0.165700 0.100000000000E+1\nG0 0.497100 7e0\nC3 +0.4972 60\n\
        [PATTERNS]\nP0 0.5\nS 1 0 1.2\n\
        [STATUS]\nU304 OPEN\n",
        time: 0,
        levels: &[],
        rows: &[
            (
                Problem::Main,
                Side::Upper,
                &[600_000_213_739_691, 600_000_005_097_734],
            ),
            (
                Problem::Main,
                Side::Lower,
                &[60 * METRE - 1, 600_000_005_097_645],
            ),
        ],
        bounds: Some(Bounds {
            words: &[
                (0, StatusWord::Unsure),
                (1, StatusWord::Open),
                (2, StatusWord::Open),
                (3, StatusWord::Open),
            ],
            flows: &[],
            outflows: &[],
            inflows: &[],
        }),
    },
    Network {
        text: "[OPTIONS]\nUNITS CMH\nHEADLOSS c-m\nDEMAND MODEL Pda\nMINIMUM PRESSURE 0\n\
        Required Pressure 0.5\n\
        [JUNCTIONS]\nJ0 14\nJ1 8 0.009661\n\
        [RESERVOIRS]\nR100 40\n\
        [TANKS]\nT200 45. +1 0e0 1e0 0.100000000000E+1\n\
        [PIPES]\nP301 J0 R100 100 300 .011 10 open\nP304 T200 R100 100 100 0.013 OPEN\n\
        [PUMPS]\nU302 T200 J1 Head C1\n\
        [VALVES]\nV303 J1 T200 100 Gpv G2\n\
        [CURVES]\nC1 0.000000 60\nC1 0.004831 45\nC1 0.009662 22.5\nC1 0.014493 0\nG2 0 0\n\
        G2 0.004831 1e0\nG2 0.014493 7.\n\
        [PATTERNS]\n1 0.5\n",
        time: 0,
        levels: &[(3_333_333_333_334, 5_000_000_000_000)],
        rows: &[
            (
                Problem::Main,
                Side::Upper,
                &[40 * METRE + 1, 490_298_023_183_606],
            ),
            (
                Problem::Main,
                Side::Lower,
                &[40 * METRE - 1, 488_629_014_869_247],
            ),
            (
                Problem::Pinned(0),
                Side::Upper,
                &[40 * METRE + 1, 488_631_356_516_940],
            ),
            (
                Problem::Pinned(0),
                Side::Lower,
                &[40 * METRE - 1, 490_295_681_535_913],
            ),
        ],
        bounds: None,
    },
    Network {
        text: "[OPTIONS]\nUnits GPM\nHEADLOSS c-m\nDemand MODEL PDA\nMINIMUM PRESSURE 0\n\
        Required Pressure 28.432\n\
        [JUNCTIONS]\nJ0 19.6850394\nJ1 32.808399 0\nJ2 32.808399e0 0.1083\n\
        [RESERVOIRS]\nR100 164.041995\n\
        [PIPES]\nP301 R100 J0 32.808399e0 1.96850394 0.013 0e0 open\n\
        P302 R100 J1 32.808399 1.96850394 .011 open\nP303 J0 J1 32.808399 1.96850394 0.013 0 open\n\
        [VALVES]\nV304 J1 J2 3.93700787 Gpv G3\n\
        [CURVES]\nG3 0 0\nG3 0.054170 +3.2808399\nG3 0.162510 22.9658793\n\
        [PATTERNS]\nS 0.8 1 1.2\n",
        time: 0,
        levels: &[],
        rows: &[
            (
                Problem::Main,
                Side::Upper,
                &[
                    499_999_990_938_804,
                    499_999_981_117_147,
                    460_022_546_056_485,
                ],
            ),
            (
                Problem::Main,
                Side::Lower,
                &[
                    499_999_990_937_481,
                    499_999_981_115_423,
                    460_021_712_948_046,
                ],
            ),
        ],
        bounds: None,
    },
    // A demand behind two throttle control valves: plain rounds creep.
    Network {
        text: TWO_JUNCTIONS,
        time: 0,
        levels: &[],
        rows: &[
            (
                Problem::Main,
                Side::Upper,
                &[998_718_316_158_263, 997_436_632_303_196],
            ),
            (
                Problem::Main,
                Side::Lower,
                &[998_718_316_110_583, 997_436_632_234_495],
            ),
        ],
        bounds: None,
    },
    // A demand that halves after two hours.
    Network {
        text: TWO_PIPES,
        time: 0,
        levels: &[],
        rows: &[
            (
                Problem::Main,
                Side::Upper,
                &[299_118_528_021_824, 297_698_160_026_642],
            ),
            (
                Problem::Main,
                Side::Lower,
                &[299_118_527_978_630, 297_698_159_973_926],
            ),
        ],
        bounds: None,
    },
    Network {
        text: TWO_PIPES,
        time: 3_600,
        levels: &[],
        rows: &[
            (
                Problem::Main,
                Side::Upper,
                &[299_118_528_021_824, 297_698_160_026_642],
            ),
            (
                Problem::Main,
                Side::Lower,
                &[299_118_527_978_630, 297_698_159_973_926],
            ),
        ],
        bounds: None,
    },
    Network {
        text: TWO_PIPES,
        time: 7_200,
        levels: &[],
        rows: &[
            (
                Problem::Main,
                Side::Upper,
                &[303_379_632_010_972, 303_024_540_013_396],
            ),
            (
                Problem::Main,
                Side::Lower,
                &[303_379_631_989_374, 303_024_539_987_036],
            ),
        ],
        bounds: None,
    },
];

/// Networks drawn at random, with each tank pinned, and two of two junctions.
pub(crate) fn networks() -> &'static [Network] {
    &NETWORKS
}

/// A demand behind two throttle control valves.
pub(crate) fn two_junctions() -> Network {
    Network {
        text: TWO_JUNCTIONS,
        time: 0,
        levels: &[],
        rows: &[],
        bounds: None,
    }
}

/// The first period of a generated network, whose text is made when it is asked.
pub(crate) fn generated() -> Network {
    Network {
        text: "",
        time: 0,
        levels: &[(5 * METRE, 5 * METRE)],
        rows: &[],
        bounds: None,
    }
}

/// Two junctions that are joined to each other alone.
pub(crate) fn without_source() -> Network {
    Network {
        text: "[OPTIONS]\nUNITS CMD\nHEADLOSS C-M\n\
    [JUNCTIONS]\nA 0 0\nB 0 0\n\
    [RESERVOIRS]\nR 100\n\
    [VALVES]\nV A B 304.8 TCV 100 0\n",
        time: 0,
        levels: &[],
        rows: &[],
        bounds: None,
    }
}
