//! What the keywords of a line stand for.
#![tactic(auto)]

ghost use Rattle.std.specs.Prelude.{◌≡◌, ◌≤◌, IfSome};
ghost use Rattle.hyd_spec_lines.specs.Headings.{is_one_of, first_named, either};
ghost use Rattle.hyd_spec_input.specs.Keywords as form;
ghost use Rattle.hyd_spec_input.specs.TimesAndClockTimes as moments;
ghost use Rattle.hyd_spec_input.specs.RuleRows.{unsupported_attributes};

use hyd_lex::is_keyword;
use hyd_net::Relation;
use hyd_num::FlowUnit;
use hyd_spec_input::{Attribute, LinkWord, NodeWord, ObjectWord, OptionWord, RuleWord, TimeWord};

// A unit that goes with feet.
fn us_unit(word: &[u8]) -> Option<FlowUnit>
    ensures { result ≡ first_named form.us_units word.now }
{
    if is_keyword(word, b"CFS") {
        return Some(FlowUnit::Cfs);
    }
    if is_keyword(word, b"GPM") {
        return Some(FlowUnit::Gpm);
    }
    if is_keyword(word, b"MGD") {
        return Some(FlowUnit::Mgd);
    }
    if is_keyword(word, b"IMGD") {
        return Some(FlowUnit::Imgd);
    }
    if is_keyword(word, b"AFD") {
        return Some(FlowUnit::Afd);
    }
    None
}

// A unit that goes with metres.
fn metric_unit(word: &[u8]) -> Option<FlowUnit>
    ensures { result ≡ first_named form.metric_units word.now }
{
    if is_keyword(word, b"LPS") {
        return Some(FlowUnit::Lps);
    }
    if is_keyword(word, b"LPM") {
        return Some(FlowUnit::Lpm);
    }
    if is_keyword(word, b"MLD") {
        return Some(FlowUnit::Mld);
    }
    if is_keyword(word, b"CMH") {
        return Some(FlowUnit::Cmh);
    }
    if is_keyword(word, b"CMD") {
        return Some(FlowUnit::Cmd);
    }
    None
}

/// The unit of flows that a word names.
#[tactic(auto, unfolding(hyd_spec_input::specs::Keywords::flow_unit))]
pub fn flow_unit(word: &[u8]) -> Option<FlowUnit>
    ensures { result ≡ form.flow_unit word.now }
{
    match us_unit(word) {
        Some(meaning) => Some(meaning),
        None => metric_unit(word),
    }
}

fn first_option(word: &[u8]) -> Option<OptionWord>
    ensures { result ≡ first_named form.option_words word.now }
{
    if is_keyword(word, b"UNITS") {
        return Some(OptionWord::Units);
    }
    if is_keyword(word, b"HEADLOSS") {
        return Some(OptionWord::HeadLoss);
    }
    if is_keyword(word, b"PATTERN") {
        return Some(OptionWord::Pattern);
    }
    if is_keyword(word, b"DEMAND") {
        return Some(OptionWord::Demand);
    }
    if is_keyword(word, b"MINIMUM") {
        return Some(OptionWord::Minimum);
    }
    None
}

fn second_option(word: &[u8]) -> Option<OptionWord>
    ensures { result ≡ first_named form.more_option_words word.now }
{
    if is_keyword(word, b"REQUIRED") {
        return Some(OptionWord::Required);
    }
    if is_keyword(word, b"PRESSURE") {
        return Some(OptionWord::Pressure);
    }
    if is_keyword(word, b"EMITTER") {
        return Some(OptionWord::Emitter);
    }
    if is_keyword(word, b"SPECIFIC") {
        return Some(OptionWord::Specific);
    }
    None
}

// Options that are read over, in three parts.
fn is_unused(word: &[u8]) -> bool
    ensures { result ≡ is_one_of form.unused_words word.now }
{
    if is_keyword(word, b"VISCOSITY") {
        return true;
    }
    if is_keyword(word, b"DIFFUSIVITY") {
        return true;
    }
    if is_keyword(word, b"TRIALS") {
        return true;
    }
    if is_keyword(word, b"ACCURACY") {
        return true;
    }
    if is_keyword(word, b"UNBALANCED") {
        return true;
    }
    false
}

fn is_more_unused(word: &[u8]) -> bool
    ensures { result ≡ is_one_of form.more_unused_words word.now }
{
    if is_keyword(word, b"TOLERANCE") {
        return true;
    }
    if is_keyword(word, b"CHECKFREQ") {
        return true;
    }
    if is_keyword(word, b"MAXCHECK") {
        return true;
    }
    if is_keyword(word, b"DAMPLIMIT") {
        return true;
    }
    if is_keyword(word, b"HEADERROR") {
        return true;
    }
    false
}

fn is_last_unused(word: &[u8]) -> bool
    ensures { result ≡ is_one_of form.last_unused_words word.now }
{
    if is_keyword(word, b"FLOWCHANGE") {
        return true;
    }
    if is_keyword(word, b"QUALITY") {
        return true;
    }
    if is_keyword(word, b"HYDRAULICS") {
        return true;
    }
    if is_keyword(word, b"MAP") {
        return true;
    }
    false
}

fn unused_option(word: &[u8]) -> Option<OptionWord>
    ensures { result ≡ form.unused_option word.now }
{
    if is_unused(word) || is_more_unused(word) || is_last_unused(word) {
        return Some(OptionWord::Unused);
    }
    None
}

// The options of the second table, and those that are read over.
fn other_option(word: &[u8]) -> Option<OptionWord>
    ensures { result ≡ either (first_named form.more_option_words word.now) (form.unused_option word.now) }
{
    match second_option(word) {
        Some(meaning) => Some(meaning),
        None => unused_option(word),
    }
}

/// The option that a line is about, by its first word.
#[tactic(auto, unfolding(hyd_spec_input::specs::Keywords::option_word))]
pub(crate) fn option_word(word: &[u8]) -> Option<OptionWord>
    ensures { result ≡ form.option_word word.now }
{
    match first_option(word) {
        Some(meaning) => Some(meaning),
        None => other_option(word),
    }
}

fn first_time(word: &[u8]) -> Option<TimeWord>
    ensures { result ≡ first_named form.time_words word.now }
{
    if is_keyword(word, b"DURATION") {
        return Some(TimeWord::Duration);
    }
    if is_keyword(word, b"HYDRAULIC") {
        return Some(TimeWord::Hydraulic);
    }
    if is_keyword(word, b"PATTERN") {
        return Some(TimeWord::Pattern);
    }
    if is_keyword(word, b"REPORT") {
        return Some(TimeWord::Report);
    }
    None
}

fn second_time(word: &[u8]) -> Option<TimeWord>
    ensures { result ≡ first_named form.more_time_words word.now }
{
    if is_keyword(word, b"RULE") {
        return Some(TimeWord::Rule);
    }
    if is_keyword(word, b"START") {
        return Some(TimeWord::Start);
    }
    if is_keyword(word, b"QUALITY") {
        return Some(TimeWord::Quality);
    }
    if is_keyword(word, b"STATISTIC") {
        return Some(TimeWord::Statistic);
    }
    None
}

/// The time that a line is about, by its first word.
#[tactic(auto, unfolding(hyd_spec_input::specs::Keywords::time_word))]
pub(crate) fn time_word(word: &[u8]) -> Option<TimeWord>
    ensures { result ≡ form.time_word word.now }
{
    match first_time(word) {
        Some(meaning) => Some(meaning),
        None => second_time(word),
    }
}

/// The kind of link that a word names.
#[tactic(auto, unfolding(hyd_spec_input::specs::Keywords::link_word))]
pub(crate) fn link_word(word: &[u8]) -> Option<LinkWord>
    ensures { result ≡ form.link_word word.now }
{
    if is_keyword(word, b"LINK") {
        return Some(LinkWord::Link);
    }
    if is_keyword(word, b"PIPE") {
        return Some(LinkWord::Pipe);
    }
    if is_keyword(word, b"PUMP") {
        return Some(LinkWord::Pump);
    }
    if is_keyword(word, b"VALVE") {
        return Some(LinkWord::Valve);
    }
    None
}

/// The kind of node that a word names.
#[tactic(auto, unfolding(hyd_spec_input::specs::Keywords::node_word))]
pub(crate) fn node_word(word: &[u8]) -> Option<NodeWord>
    ensures { result ≡ form.node_word word.now }
{
    if is_keyword(word, b"NODE") {
        return Some(NodeWord::Node);
    }
    if is_keyword(word, b"JUNCTION") {
        return Some(NodeWord::Junction);
    }
    if is_keyword(word, b"TANK") {
        return Some(NodeWord::Tank);
    }
    if is_keyword(word, b"RESERVOIR") {
        return Some(NodeWord::Reservoir);
    }
    None
}

fn link_object(word: &[u8]) -> Option<ObjectWord>
    ensures { result ≡ form.link_object (form.link_word word.now) }
{
    match link_word(word) {
        Some(link) => Some(ObjectWord::Link(link)),
        None => None,
    }
}

fn node_or_link_object(word: &[u8]) -> Option<ObjectWord>
    ensures { result ≡ either (form.node_object (form.node_word word.now))
        (form.link_object (form.link_word word.now)) }
{
    match node_word(word) {
        Some(node) => Some(ObjectWord::Node(node)),
        None => link_object(word),
    }
}

/// The object that a clause's second word names.
#[tactic(auto, unfolding(hyd_spec_input::specs::Keywords::object_word))]
pub(crate) fn object_word(word: &[u8]) -> Option<ObjectWord>
    ensures { result ≡ form.object_word word.now }
{
    if is_keyword(word, b"SYSTEM") {
        return Some(ObjectWord::System);
    }
    node_or_link_object(word)
}

fn first_attribute(word: &[u8]) -> Option<Attribute>
    ensures { result ≡ first_named form.attribute_words word.now }
{
    if is_keyword(word, b"HEAD") {
        return Some(Attribute::Head);
    }
    if is_keyword(word, b"PRESSURE") {
        return Some(Attribute::Pressure);
    }
    if is_keyword(word, b"LEVEL") {
        return Some(Attribute::Level);
    }
    if is_keyword(word, b"FLOW") {
        return Some(Attribute::Flow);
    }
    None
}

fn second_attribute(word: &[u8]) -> Option<Attribute>
    ensures { result ≡ first_named form.more_attribute_words word.now }
{
    if is_keyword(word, b"SETTING") {
        return Some(Attribute::Setting);
    }
    if is_keyword(word, b"STATUS") {
        return Some(Attribute::Status);
    }
    if is_keyword(word, b"TIME") {
        return Some(Attribute::Time);
    }
    if is_keyword(word, b"CLOCKTIME") {
        return Some(Attribute::Clock);
    }
    None
}

/// The attribute that a word names.
#[tactic(auto, unfolding(hyd_spec_input::specs::Keywords::attribute_word))]
pub(crate) fn attribute_word(word: &[u8]) -> Option<Attribute>
    ensures { result ≡ form.attribute_word word.now }
{
    match first_attribute(word) {
        Some(meaning) => Some(meaning),
        None => second_attribute(word),
    }
}

/// Whether a word names an attribute that isn't supported.
pub(crate) fn is_unsupported_attribute(word: &[u8]) -> bool
    ensures { result ≡ is_one_of unsupported_attributes word.now }
{
    if is_keyword(word, b"DEMAND") {
        return true;
    }
    if is_keyword(word, b"FILLTIME") {
        return true;
    }
    is_keyword(word, b"DRAINTIME")
}

// Less or more.
fn order_word(word: &[u8]) -> Option<Relation>
    ensures { result ≡ first_named form.order_words word.now }
{
    if is_keyword(word, b"<") {
        return Some(Relation::Less);
    }
    if is_keyword(word, b"<=") {
        return Some(Relation::AtMost);
    }
    if is_keyword(word, b">") {
        return Some(Relation::More);
    }
    if is_keyword(word, b">=") {
        return Some(Relation::AtLeast);
    }
    if is_keyword(word, b"ABOVE") {
        return Some(Relation::More);
    }
    if is_keyword(word, b"BELOW") {
        return Some(Relation::Less);
    }
    None
}

// Equal or not.
fn equality_word(word: &[u8]) -> Option<Relation>
    ensures { result ≡ first_named form.equality_words word.now }
{
    if is_keyword(word, b"IS") {
        return Some(Relation::Equal);
    }
    if is_keyword(word, b"=") {
        return Some(Relation::Equal);
    }
    if is_keyword(word, b"NOT") {
        return Some(Relation::Unequal);
    }
    if is_keyword(word, b"<>") {
        return Some(Relation::Unequal);
    }
    None
}

/// The relation that a word names.
#[tactic(auto, unfolding(hyd_spec_input::specs::Keywords::relation_word))]
pub(crate) fn relation_word(word: &[u8]) -> Option<Relation>
    ensures { result ≡ form.relation_word word.now }
{
    match order_word(word) {
        Some(meaning) => Some(meaning),
        None => equality_word(word),
    }
}

fn first_rule_word(word: &[u8]) -> Option<RuleWord>
    ensures { result ≡ first_named form.rule_words word.now }
{
    if is_keyword(word, b"RULE") {
        return Some(RuleWord::Rule);
    }
    if is_keyword(word, b"IF") {
        return Some(RuleWord::If);
    }
    if is_keyword(word, b"AND") {
        return Some(RuleWord::And);
    }
    if is_keyword(word, b"OR") {
        return Some(RuleWord::Or);
    }
    None
}

fn second_rule_word(word: &[u8]) -> Option<RuleWord>
    ensures { result ≡ first_named form.more_rule_words word.now }
{
    if is_keyword(word, b"THEN") {
        return Some(RuleWord::Then);
    }
    if is_keyword(word, b"ELSE") {
        return Some(RuleWord::Else);
    }
    if is_keyword(word, b"PRIORITY") {
        return Some(RuleWord::Priority);
    }
    None
}

/// What a line of a rule is, by its first word.
#[tactic(auto, unfolding(hyd_spec_input::specs::Keywords::rule_word))]
pub fn rule_word(word: &[u8]) -> Option<RuleWord>
    ensures { result ≡ form.rule_word word.now }
{
    match first_rule_word(word) {
        Some(meaning) => Some(meaning),
        None => second_rule_word(word),
    }
}

fn short_unit(word: &[u8]) -> Option<u32>
    ensures seconds { result ≡ first_named moments.short_units word.now }
    ensures short { IfSome result (λ seconds. seconds ≤ 86400) }
{
    if is_keyword(word, b"SEC") {
        return Some(1);
    }
    if is_keyword(word, b"SECONDS") {
        return Some(1);
    }
    if is_keyword(word, b"MIN") {
        return Some(60);
    }
    if is_keyword(word, b"MINUTES") {
        return Some(60);
    }
    None
}

fn long_unit(word: &[u8]) -> Option<u32>
    ensures seconds { result ≡ first_named moments.long_units word.now }
    ensures short { IfSome result (λ seconds. seconds ≤ 86400) }
{
    if is_keyword(word, b"HOUR") {
        return Some(3_600);
    }
    if is_keyword(word, b"HOURS") {
        return Some(3_600);
    }
    if is_keyword(word, b"DAY") {
        return Some(86_400);
    }
    if is_keyword(word, b"DAYS") {
        return Some(86_400);
    }
    None
}

/// The seconds of a unit of time.
#[tactic(auto, unfolding(hyd_spec_input::specs::TimesAndClockTimes::unit_seconds))]
pub(crate) fn unit_seconds(word: &[u8]) -> Option<u32>
    ensures seconds { result ≡ moments.unit_seconds word.now }
    ensures short { IfSome result (λ seconds. seconds ≤ 86400) }
{
    match short_unit(word) {
        Some(meaning) => Some(meaning),
        None => long_unit(word),
    }
}
