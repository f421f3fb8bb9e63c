//! The words of the command line.
#![tactic(auto)]

ghost use Rattle.std.specs.Prelude.{◌≡◌, pos, neg_ℤ, true, false, [], ◌∷◌, map, codes};
ghost use Rattle.hyd_command_words.specs.CommandGrammar.{order_of};
ghost use Rattle.hyd_cases_of_definitions.specs.Commands.{typed, asks_run, asks_check, asks_gen, are_none};
ghost use Rattle.hyd_cases_of_definitions.specs.Commands.{asks_fire, asks_closures, asks_flows, asks_meet, asks_slack};
ghost use Rattle.hyd_cases_of_definitions.specs.Commands.{asks_fire_over, asks_closures_over};

/// The words of `run`: its options in each form, and where they stand.
pub fn runs()
    ensures options { map order_of (map typed (
        codes "run a b" ∷ codes "run a b --tight" ∷ codes "run --tight a b" ∷
        codes "run --sweeps=5 a --width 0.5 b" ∷ codes "run a --sweeps 0 b" ∷ codes "run a b --sweeps=100000" ∷
        codes "run a b --sweeps 000001" ∷ codes "run a b --width 1000" ∷ codes "run a b --width=1e-9" ∷
        codes "run a b --width +.5" ∷ codes "run a b --width 1000.0000000004" ∷ []))
        ≡
        asks_run (codes "a") (codes "b") 200 (pos 100000000000) false ∷
        asks_run (codes "a") (codes "b") 200 (pos 100000000000) true ∷
        asks_run (codes "a") (codes "b") 200 (pos 100000000000) true ∷
        asks_run (codes "a") (codes "b") 5 (pos 5000000000000) false ∷
        asks_run (codes "a") (codes "b") 0 (pos 100000000000) false ∷
        asks_run (codes "a") (codes "b") 100000 (pos 100000000000) false ∷
        asks_run (codes "a") (codes "b") 1 (pos 100000000000) false ∷
        asks_run (codes "a") (codes "b") 200 (pos 10000000000000000) false ∷
        asks_run (codes "a") (codes "b") 200 (pos 10000) false ∷
        asks_run (codes "a") (codes "b") 200 (pos 5000000000000) false ∷
        asks_run (codes "a") (codes "b") 200 (pos 10000000000000000) false ∷ [] }
    ensures positions { map order_of (map typed (
        codes "run - b" ∷ codes "run -- -a b" ∷ codes "run -- -a -b" ∷ codes "run a -- --tight" ∷
        codes "run a b --" ∷ codes "run a -- --" ∷ []))
        ≡
        asks_run (codes "-") (codes "b") 200 (pos 100000000000) false ∷
        asks_run (codes "-a") (codes "b") 200 (pos 100000000000) false ∷
        asks_run (codes "-a") (codes "-b") 200 (pos 100000000000) false ∷
        asks_run (codes "a") (codes "--tight") 200 (pos 100000000000) false ∷
        asks_run (codes "a") (codes "b") 200 (pos 100000000000) false ∷
        asks_run (codes "a") (codes "--") 200 (pos 100000000000) false ∷ [] }
{}

/// The words of `run` with names of links: one to 16 of them, each of 1 to 31 bytes, whatever these are.
pub fn runs_naming()
    ensures names { map order_of (map typed (
        codes "run a b --flows V" ∷ codes "run --flows V,W a b" ∷ codes "run a --flows=W,V b" ∷
        codes "run a b --flows=-x" ∷ codes "run a b --flows=V,-,--" ∷ codes "run a b --flows=-" ∷
        codes "run a b --flows a;b" ∷ codes "run a b --flows=V=W" ∷ codes "run a b --flows é,v,V" ∷
        codes "run a b --flows 1234567890123456789012345678901" ∷
        codes "run a b --flows 1,2,3,4,5,6,7,8,9,10,11,12,13,14,15,16" ∷ []))
        ≡
        asks_flows (codes "V" ∷ []) ∷ asks_flows (codes "V" ∷ codes "W" ∷ []) ∷
        asks_flows (codes "W" ∷ codes "V" ∷ []) ∷
        asks_flows (codes "-x" ∷ []) ∷ asks_flows (codes "V" ∷ codes "-" ∷ codes "--" ∷ []) ∷
        asks_flows (codes "-" ∷ []) ∷
        asks_flows (codes "a;b" ∷ []) ∷ asks_flows (codes "V=W" ∷ []) ∷
        asks_flows (codes "é" ∷ codes "v" ∷ codes "V" ∷ []) ∷
        asks_flows (codes "1234567890123456789012345678901" ∷ []) ∷
        asks_flows (codes "1" ∷ codes "2" ∷ codes "3" ∷ codes "4" ∷ codes "5" ∷ codes "6" ∷ codes "7" ∷ codes "8" ∷
        codes "9" ∷ codes "10" ∷ codes "11" ∷ codes "12" ∷ codes "13" ∷ codes "14" ∷ codes "15" ∷
        codes "16" ∷ []) ∷ [] }
    ensures positions { map order_of (map typed (
        codes "run -- --flows -" ∷ codes "run a -- --flows" ∷ codes "run --flows=V -- a b" ∷ []))
        ≡
        asks_run (codes "--flows") (codes "-") 200 (pos 100000000000) false ∷
        asks_run (codes "a") (codes "--flows") 200 (pos 100000000000) false ∷
        asks_flows (codes "V" ∷ []) ∷ [] }
{}

/// The words of `run` with a slack: up to a day, in one to five digits. Names of links go with none.
pub fn runs_with_slack()
    ensures seconds { map order_of (map typed (
        codes "run a b --slack 0" ∷ codes "run a b --slack 1" ∷ codes "run --slack=3600 a b" ∷
        codes "run a --slack 00030 b" ∷ codes "run --slack 86400 -- a b" ∷ []))
        ≡
        asks_slack 0 ∷ asks_slack 1 ∷ asks_slack 3600 ∷ asks_slack 30 ∷ asks_slack 86400 ∷ [] }
    ensures positions { map order_of (map typed (
        codes "run -- --slack b" ∷ codes "run a b --slack 0 --flows V" ∷ codes "run a b --flows=V --slack=00000" ∷ []))
        ≡
        asks_run (codes "--slack") (codes "b") 200 (pos 100000000000) false ∷
        asks_flows (codes "V" ∷ []) ∷ asks_flows (codes "V" ∷ []) ∷ [] }
    ensures refused { are_none (map order_of (map typed (
        codes "run a b --slack" ∷ codes "run a b --slack=" ∷ codes "run a b --slack -1" ∷ codes "run a b --slack=-1" ∷
        codes "run a b --slack +1" ∷ codes "run a b --slack 86401" ∷ codes "run a b --slack 000001" ∷
        codes "run a b --slack 1.5" ∷ codes "run a b --slack 1 --slack 1" ∷ codes "run a b --slack 1 --flows V" ∷
        codes "run a b --flows=V --slack=1" ∷ codes "run a b --Slack 1" ∷ codes "check a b --slack 1" ∷
        codes "gen 7 1 a b --slack 1" ∷ codes "fire a J 1 --slack 1" ∷ codes "closures a 1 --slack 0" ∷
        codes "meet a b --slack 1" ∷ []))) ≡ true }
{}

/// The words of `check` and of `gen`.
pub fn others()
    ensures checks { map order_of (map typed (
        codes "check a b" ∷ codes "check -- a b" ∷ []))
        ≡
        asks_check (codes "a") (codes "b") ∷ asks_check (codes "a") (codes "b") ∷ [] }
    ensures gens { map order_of (map typed (
        codes "gen 1 10 a b" ∷ codes "gen 0 1 a b" ∷ codes "gen 2147483647 10000 a b" ∷
        codes "gen 0000000007 00001 a -- -b" ∷ []))
        ≡
        asks_gen 1 10 (codes "a") (codes "b") ∷ asks_gen 0 1 (codes "a") (codes "b") ∷
        asks_gen 2147483647 10000 (codes "a") (codes "b") ∷ asks_gen 7 1 (codes "a") (codes "-b") ∷ [] }
{}

/// The words of `fire` and of `closures`: a pressure may be negative behind `--` alone, and a junction may have the
/// name of the file.
pub fn targets()
    ensures fires { map order_of (map typed (
        codes "fire a J 16.0645975" ∷ codes "fire a a 0" ∷ codes "fire --sweeps=0 a J 1e4" ∷
        codes "fire a --sweeps 7 J +.5" ∷ codes "fire a J --sweeps 100000 -- -3" ∷ codes "fire -- -a -- -1e4" ∷
        codes "fire a - 10000.0000000009" ∷ []))
        ≡
        asks_fire (codes "a") (codes "J") (pos 16064597500) 200 ∷ asks_fire (codes "a") (codes "a") (pos 0) 200 ∷
        asks_fire (codes "a") (codes "J") (pos 10000000000000) 0 ∷
        asks_fire (codes "a") (codes "J") (pos 500000000) 7 ∷
        asks_fire (codes "a") (codes "J") (neg_ℤ (pos 3000000000)) 100000 ∷
        asks_fire (codes "-a") (codes "--") (neg_ℤ (pos 10000000000000)) 200 ∷
        asks_fire (codes "a") (codes "-") (pos 10000000000000) 200 ∷ [] }
    ensures closes { map order_of (map typed (
        codes "closures a 43" ∷ codes "closures a 4.3e1 --sweeps 5" ∷ codes "closures a -- -0.5" ∷ []))
        ≡
        asks_closures (codes "a") (pos 43000000000) 200 ∷ asks_closures (codes "a") (pos 43000000000) 5 ∷
        asks_closures (codes "a") (neg_ℤ (pos 500000000)) 200 ∷ [] }
{}

/// The words of `fire` and of `closures` for a spread: FILE is given once, and differs from NET.
pub fn targets_for_spreads()
    ensures fires { map order_of (map typed (
        codes "fire a J 1 --spread s" ∷ codes "fire --spread=J a J 1 --sweeps 7" ∷ codes "fire a --spread s J -- -3" ∷ []))
        ≡
        asks_fire_over (codes "a") (codes "J") (pos 1000000000) 200 (codes "s") ∷
        asks_fire_over (codes "a") (codes "J") (pos 1000000000) 7 (codes "J") ∷
        asks_fire_over (codes "a") (codes "J") (neg_ℤ (pos 3000000000)) 200 (codes "s") ∷ [] }
    ensures closes { map order_of (map typed (
        codes "closures a 43 --spread s" ∷ codes "closures --sweeps=5 a 43 --spread=s" ∷ []))
        ≡
        asks_closures_over (codes "a") (pos 43000000000) 200 (codes "s") ∷
        asks_closures_over (codes "a") (pos 43000000000) 5 (codes "s") ∷ [] }
    ensures refused { are_none (map order_of (map typed (
        codes "fire a J 1 --spread a" ∷ codes "fire a J 1 --spread -s" ∷ codes "fire a J 1 --spread -" ∷
        codes "fire a J 1 --spread=-s" ∷ codes "fire a J 1 --spread" ∷ codes "fire a J 1 --spread s --spread s" ∷
        codes "fire a J 1 --spread s --tight" ∷ codes "fire a J --spread s" ∷ codes "closures a 1 --spread a" ∷
        codes "closures a 1 --spread -s" ∷ codes "closures a 1 --spread s --spread=s" ∷
        codes "closures a 1 --spread s --slack 0" ∷ codes "closures a --spread s" ∷
        codes "meet a b --spread s" ∷ []))) ≡ true }
{}

/// The words of `meet`.
pub fn witnesses()
    ensures meets { map order_of (map typed (
        codes "meet a b" ∷ codes "meet -- a b" ∷ codes "meet - b" ∷ codes "meet a -- -b" ∷ []))
        ≡
        asks_meet (codes "a") (codes "b") ∷ asks_meet (codes "a") (codes "b") ∷ asks_meet (codes "-") (codes "b") ∷
        asks_meet (codes "a") (codes "-b") ∷ [] }
{}

/// Words that are no command.
pub fn refused()
    ensures names { are_none (map order_of (map typed (
        codes "run" ∷ codes "run a" ∷ codes "run a b c" ∷ codes "run a a" ∷ codes "RUN a b" ∷ codes "walk a b" ∷
        codes "-- run a b" ∷ []))) ≡ true }
    ensures rounds { are_none (map order_of (map typed (
        codes "run a b --tight --tight" ∷ codes "run a b --tight=" ∷ codes "run a b --tight=1" ∷
        codes "run a b -t" ∷ codes "run a b --sweeps" ∷ codes "run a b --sweeps -1" ∷ codes "run a b --sweeps=-1" ∷
        codes "run a b --sweeps +1" ∷ codes "run a b --sweeps 100001" ∷ codes "run a b --sweeps 0000001" ∷
        codes "run a b --sweeps=" ∷ codes "run a b --sweeps 1 --sweeps 1" ∷ codes "run a b --sweeps=1 --sweeps 2" ∷
        codes "run a --sweeps -- b" ∷ []))) ≡ true }
    ensures widths { are_none (map order_of (map typed (
        codes "run a b --width 0" ∷ codes "run a b --width 1e-10" ∷ codes "run a b --width 1000.000000001" ∷
        codes "run a b --width x" ∷ codes "run a b --width -5" ∷ codes "run a b --width=-5" ∷
        codes "run a b --width 1 --width=1" ∷ codes "run a b --sweeps -" ∷ codes "run a b --Tight" ∷
        codes "run a b --unknown" ∷ codes "run a b --help" ∷ codes "run a b --sweep 5" ∷ []))) ≡ true }
    ensures flows { are_none (map order_of (map typed (
        codes "run a b --flows" ∷ codes "run a b --flows=" ∷ codes "run a b --flows -" ∷ codes "run a b --flows -x" ∷
        codes "run --flows - a b" ∷ codes "run --flows -- a b" ∷ codes "run a b --flows V --flows W" ∷
        codes "run a b --flows=V --flows V" ∷ codes "run a b --flows V,V" ∷ codes "run a b --flows V,W,V" ∷
        codes "run a b --flows ," ∷ codes "run a b --flows V," ∷ codes "run a b --flows ,V" ∷
        codes "run a b --flows V,,W" ∷ codes "run a b --flows 12345678901234567890123456789012" ∷
        codes "run a b --flows V,12345678901234567890123456789012" ∷
        codes "run a b --flows 1,2,3,4,5,6,7,8,9,10,11,12,13,14,15,16,17" ∷ codes "run a b --Flows V" ∷
        codes "run a b --flow V" ∷ codes "run a b V" ∷ []))) ≡ true }
    ensures flows_alone { are_none (map order_of (map typed (
        codes "check a b --flows V" ∷ codes "check a b --flows=V" ∷ codes "gen 7 1 a b --flows V" ∷
        codes "fire a J 1 --flows V" ∷ codes "closures a 1 --flows V" ∷ codes "closures a 1 --flows=V" ∷
        codes "fire a J --flows -" ∷ []))) ≡ true }
    ensures others { are_none (map order_of (map typed (
        codes "check a b --tight" ∷ codes "check a b --sweeps 5" ∷ codes "check a a" ∷ codes "check a" ∷
        codes "gen 7 1 a" ∷ codes "gen 2147483648 1 a b" ∷ codes "gen 7 0 a b" ∷ codes "gen 7 10001 a b" ∷
        codes "gen x 1 a b" ∷ codes "gen 00000000007 1 a b" ∷ codes "gen 7 000001 a b" ∷ codes "gen 7 1 a a" ∷
        codes "gen 7 1 a b --tight" ∷ codes "gen -7 1 a b" ∷ codes "gen 7 1 a b c" ∷ []))) ≡ true }
    ensures targets { are_none (map order_of (map typed (
        codes "fire a J" ∷ codes "fire a J 1 2" ∷ codes "fire a J -1" ∷ codes "fire a -J 1" ∷ codes "fire a J x" ∷
        codes "fire a J 10000.000000001" ∷ codes "fire a J 1e13" ∷ codes "fire a J 1 --tight" ∷
        codes "fire a J 1 --width 1" ∷ codes "fire a J 1 --sweeps 100001" ∷ codes "fire a J 1 --sweeps 1 --sweeps 1" ∷
        codes "fire a J -- -10000.000000001" ∷ codes "fire a J -" ∷ codes "Fire a J 1" ∷ codes "closures a" ∷
        codes "closures a 1 2" ∷ codes "closures a -1" ∷ codes "closures a 1 --tight" ∷
        codes "closures a 1 --width=1" ∷ codes "closures a 10001" ∷ codes "closures a 1 --sweeps -1" ∷ []))) ≡ true }
    ensures witnesses { are_none (map order_of (map typed (
        codes "meet" ∷ codes "meet a" ∷ codes "meet a a" ∷ codes "meet a b c" ∷ codes "Meet a b" ∷
        codes "meet a -b" ∷ codes "meet a b --tight" ∷ codes "meet a b --sweeps 5" ∷ codes "meet a b --width=1" ∷
        codes "meet a b --flows V" ∷ codes "meets a b" ∷ []))) ≡ true }
{}
