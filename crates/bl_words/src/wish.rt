//! What the words ask for.
ghost use Rattle.std.specs.Prelude.{codes, ◌≡◌, ◌≤◌, length, option_map, IfSome, None};
ghost use Rattle.bl_words.specs.Words.{digits_from, number_in, number_or};
ghost use Rattle.bl_words.specs.Wishes.{Asks, IsWithinRanges, cuts_of, generate_of, half_of};
ghost use Rattle.bl_words.specs.Wishes.{order_of};
ghost use Rattle.clap.specs.Words.{first_value, found_of};

use bl_cover::CutKinds;
use bl_journal::{MOST_NODES, MOST_SPAN, MOST_WORKERS, Order, Settings};
use clap::ArgMatches;

/// A problem that is to be made from a number.
#[derive(Clone, Copy, Debug, PartialEq, Eq)]
pub struct GenWish {
    /// Below 2^31.
    pub start: u32,
    /// 1 to 1,000.
    pub columns: u32,
    /// At most 1,000.
    pub rows: u32,
}

/// What the words ask for.
#[derive(Clone, Copy, Debug, PartialEq, Eq)]
pub struct Wish {
    /// 1 to `MOST_WORKERS`.
    pub workers: u32,
    /// How many nodes may be used, how they are stored, and in which order they are taken. Its
    /// gap is 0 until the problem's scale is known.
    pub settings: Settings,
    /// Whether each split is in the middle of the widest column, and not by the fractions of a
    /// proposal.
    pub half: bool,
    /// By how many whole units of the objective a point may fail to be optimal: at most `MOST_GAP`.
    pub gap: u32,
    /// Which cuts are proposed at a node.
    pub cuts: CutKinds,
    /// The problem to be made, where none is to be read.
    pub generate: Option<GenWish>,
    /// Whether the problem is to be written as text, and not to be solved.
    pub write: bool,
    /// Whether the journal of the search and what its tree holds are told before the answer. Not
    /// with `write`.
    pub log: bool,
}

const WORKERS: u32 = 1;

const NODES: u32 = 20_000;

const SPAN: u32 = 8;

const GAP: u32 = 0;

/// The largest gap that words may ask for, in whole units of the objective.
pub const MOST_GAP: u32 = 1_000_000_000;

const MOST_START: u32 = 2_147_483_647;

const COLUMNS: u32 = 30;

const MOST_COLUMNS: u32 = 1_000;

const ROWS: u32 = 10;

const MOST_ROWS: u32 = 1_000;

/// A number has at most so many digits.
const MOST_DIGITS: usize = 10;

// The number that at most 10 digits spell.
fn digits_value(text: &[u8]) -> Option<u64>
    requires { length text.now ≤ 10 }
    ensures { result ≡ digits_from 0 text.now }
{
    let mut number = 0;
    for byte in text {
        if !byte.is_ascii_digit() {
            return None;
        }
        number = number * 10 + (*byte - b'0') as u64;
    }
    Some(number)
}

// The number in its range that 1 to 10 digits spell.
fn number(text: &[u8], least: u32, most: u32) -> Option<u32>
    ensures { result ≡ number_in least most text.now }
{
    if text.is_empty() || text.len() > MOST_DIGITS {
        return None;
    }
    let number = digits_value(text)?;
    if u64::from(least) <= number && number <= u64::from(most) {
        Some(number as u32)
    } else {
        None
    }
}

// The number in its range that an option has, or its default.
fn number_option(
    matches: &ArgMatches,
    name: &str,
    least: u32,
    most: u32,
    otherwise: u32,
) -> Option<u32>
    ensures { result ≡ number_or least most otherwise
        (first_value (found_of matches.now) name.now) }
{
    match matches.get_str(name) {
        None => Some(otherwise),
        Some(text) => number(text.as_bytes(), least, most),
    }
}

fn order_option(value: Option<&str>) -> Option<Order>
    ensures { result ≡ order_of (option_map (λ s. s.now) value.entry) }
{
    match value {
        None => Some(Order::Best),
        Some(text) => {
            if text == "best" {
                Some(Order::Best)
            } else if text == "depth" {
                Some(Order::Depth)
            } else {
                None
            }
        }
    }
}

fn half_option(value: Option<&str>) -> Option<bool>
    ensures { result ≡ half_of (option_map (λ s. s.now) value.entry) }
{
    match value {
        None => Some(false),
        Some(text) => {
            if text == "half" {
                Some(true)
            } else if text == "fraction" {
                Some(false)
            } else {
                None
            }
        }
    }
}

fn cuts_option(value: Option<&str>) -> Option<CutKinds>
    ensures { result ≡ cuts_of (option_map (λ s. s.now) value.entry) }
{
    match value {
        None => Some(CutKinds::Both),
        Some(text) => {
            if text == "rows" {
                Some(CutKinds::Rows)
            } else if text == "covers" {
                Some(CutKinds::Covers)
            } else if text == "both" {
                Some(CutKinds::Both)
            } else {
                None
            }
        }
    }
}

// The problem that is to be made, whose sizes may be named only beside its start.
fn generate_option(matches: &ArgMatches) -> Option<Option<GenWish>>
    ensures { result ≡ generate_of (first_value (found_of matches.now) (codes "gen")) (first_value (found_of matches.now) (codes "columns"))
        (first_value (found_of matches.now) (codes "rows")) }
{
    match matches.get_str("gen") {
        None => {
            if matches.get_str("columns").is_some() || matches.get_str("rows").is_some() {
                return None;
            }
            Some(None)
        }
        Some(text) => {
            let start = number(text.as_bytes(), 0, MOST_START)?;
            let columns = number_option(matches, "columns", 1, MOST_COLUMNS, COLUMNS)?;
            let rows = number_option(matches, "rows", 0, MOST_ROWS, ROWS)?;
            Some(Some(GenWish {
                start,
                columns,
                rows,
            }))
        }
    }
}

/// What the values of the options ask for, with or without the flags `--write` and `--log`. None
/// exactly where they ask for nothing.
pub fn asked(matches: &ArgMatches, write: bool, log: bool) -> Option<Wish>
    ensures some { IfSome result
        (λ wish. Asks (first_value (found_of matches.now)) write log wish) }
    ensures none { result ≡ None → (wish : Wish) → Asks (first_value (found_of matches.now)) write
        log wish → ⊥ }
{
    if write && log {
        return None;
    }
    let workers = number_option(matches, "workers", 1, MOST_WORKERS, WORKERS)?;
    let nodes = number_option(matches, "nodes", 0, MOST_NODES, NODES)?;
    let span = number_option(matches, "span", 1, MOST_SPAN, SPAN)?;
    let order = order_option(matches.get_str("order"))?;
    let half = half_option(matches.get_str("branch"))?;
    let gap = number_option(matches, "gap", 0, MOST_GAP, GAP)?;
    let cuts = cuts_option(matches.get_str("cuts"))?;
    let generate = generate_option(matches)?;
    Some(Wish {
        workers,
        settings: Settings {
            nodes,
            span,
            order,
            gap: 0,
        },
        half,
        gap,
        cuts,
        generate,
        write,
        log,
    })
}
