//! The run of the program.
ghost use Rattle.std.specs.Prelude.{◌≡◌, ◌≢◌, ◌+◌, ◌*◌, ◌^◌, ◌≤◌, ◌<◌, pos, ◌≤ℤ◌, ◌⊎◌, false};
ghost use Rattle.std.specs.Prelude.{true, None, Some, length, is_some, IfOk, IfErr, IfSome, OnOk};
ghost use Rattle.std.specs.Prelude.{OnErr, IsErrOf, ◌++◌};
ghost use Rattle.std.specs.Io.KnownBytes.{Appends};
ghost use Rattle.bl_io.specs.Causes.{Rose, HasCause};
ghost use Rattle.bl_io.specs.Streams.{AppendsPrefix, ReadsWithin};
ghost use Rattle.bl_journal.specs.declared.limits.TheConstants.{LARGEST_GAP};
ghost use Rattle.bl_words.specs.Wishes.{AreSizes, IsWithinRanges};
ghost use Rattle.bl_words.specs.declared.wish.TheConstants.{MOST_GAP};
ghost use Rattle.bl_report.specs.Texts.{fault_line, model_line};
ghost use Rattle.bl_run.specs.declared.top.TheConstants.{MOST_BYTES};
ghost use Rattle.bl_run.specs.Splitting.{IsSplitBy};
ghost use Rattle.bl_search.specs.Places.{SplitsAt};
ghost use Rattle.bl_search.specs.Searches.{IsSearched};
ghost use Rattle.bl_tree.specs.Views.{past_of};
ghost use Rattle.bl_run.specs.Runs.{AskFor, AskToMake, EndsAs, EndsByReply, EndsByStop, HasReason};
ghost use Rattle.bl_run.specs.Runs.{HasRun, HasStopped, IsAsked, IsEarly, IsGiven, IsModelOf};
ghost use Rattle.bl_run.specs.Runs.{IsRead, IsReplied, IsSolved, MeanNothing, WritesLine};
ghost use Rattle.bl_run.specs.Runs.{log_lines, outside, settings_for, shows_columns, words_status};

use crate::searching::{search_many, search_one};
use bl_gen::make;
use bl_io::{Failed, ReadEnd, Sink, Source, read_all, write_all};
use bl_journal::laws::answers_are_true;
use bl_journal::{Journal, Settings};
use bl_log::log_text;
use bl_mps::{ModelFault, What, read};
use bl_problem::Problem;
use bl_report::{answer_text, held_line, model_line};
use bl_search::EndedSearch;
use bl_words::laws::words_mean_one_wish;
use bl_words::{GenWish, Wish, WordsFault, read_words};
use bl_worker::Gate;
use bl_write::write;
use std::alloc::{AllocError, Global};
use std::sync::{Arc, Wait};
use std::thread::Threads;

/// How a run ended: its status, and the journal of its search where one was made and ended.
#[derive(Drop)]
pub struct Ended {
    pub status: u8,
    pub journal: Option<Journal>,
}

/// A model has at most so many bytes.
pub const MOST_BYTES: usize = 8_388_608;

/// Does all that the program of many threads does: as many workers search the tree as the words
/// say, each in a thread where one can be had, and each passes the gate.
pub fn run<R: Threads + Wait + Sync, S: Source, K: Sink, G: Gate>(
    rt: &R,
    alloc: Global,
    words: &[String],
    source: &mut S,
    sink: &mut K,
    gate: &G,
) -> Ended
    // Each status has its cause, and what was written: `HasRun` tells it status by status.
    ensures ran { HasRun false words.now result
        (outside (S.left source.old) (S.faults source.old) (K.kept sink.old) (K.faults sink.old))
        (outside (S.left source.new) (S.faults source.new) (K.kept sink.new) (K.faults sink.new)) }
    // The source is untouched where the words mean nothing, and where a problem is to be made.
    ensures unread { MeanNothing false words.now → source.new ≡ source.old }
    ensures untouched { AskToMake false words.now → source.new ≡ source.old }
{
    let reply = answer_many(rt, alloc, words, source, gate);
    end(alloc, sink, reply)
}

/// Does all that the program of one thread does: seat 0 searches the tree alone.
pub fn run_one<S: Source, K: Sink>(
    alloc: Global,
    words: &[String],
    source: &mut S,
    sink: &mut K,
) -> Ended
    // Each status has its cause, and what was written: `HasRun` tells it status by status.
    ensures ran { HasRun true words.now result
        (outside (S.left source.old) (S.faults source.old) (K.kept sink.old) (K.faults sink.old))
        (outside (S.left source.new) (S.faults source.new) (K.kept sink.new) (K.faults sink.new)) }
    // The source is untouched where the words mean nothing, and where a problem is to be made.
    ensures unread { MeanNothing true words.now → source.new ≡ source.old }
    ensures untouched { AskToMake true words.now → source.new ≡ source.old }
{
    let reply = answer_one(alloc, words, source);
    end(alloc, sink, reply)
}

// Ends a run with what is to be written, or with the line that tells why there is nothing.
fn end<K: Sink>(alloc: Global, sink: &mut K, reply: Result<Reply, Stop>) -> Ended
    ensures { EndsAs reply result (K.kept sink.old) (K.kept sink.new) (K.faults sink.old)
        (K.faults sink.new) }
{
    match reply {
        Ok(reply) => end_by_reply(sink, reply),
        Err(stop) => end_by_stop(alloc, sink, stop),
    }
}

// Ends a run with what is to be written.
fn end_by_reply<K: Sink>(sink: &mut K, reply: Reply) -> Ended
    ensures { EndsByReply reply result (K.kept sink.old) (K.kept sink.new) (K.faults sink.old)
        (K.faults sink.new) }
{
    match reply {
        Reply::Answer(answered) => answer_written(sink, answered),
        Reply::Model(text) => model_written(sink, &text),
    }
}

// Ends a run with the line that tells why there is nothing to write.
fn end_by_stop<K: Sink>(alloc: Global, sink: &mut K, stop: Stop) -> Ended
    ensures { EndsByStop stop result (K.kept sink.old) (K.kept sink.new) (K.faults sink.old)
        (K.faults sink.new) }
{
    match stop {
        Stop::Words => stopped(sink, 2, b"fault words\n"),
        Stop::TooLong => stopped(sink, 3, b"fault model long\n"),
        Stop::Model { line, what } => refused(alloc, sink, line, what),
        Stop::Read => stopped(sink, 4, b"fault read\n"),
        Stop::Memory => stopped(sink, 6, b"fault memory\n"),
    }
}

// The status of a search that has ended.
fn answered_status(limited: bool) -> u8
    ensures decided { limited ≡ false → result ≡ 0 }
    ensures limited { limited ≡ true → result ≡ 1 }
    ensures few { result ≤ 1 }
{
    if limited { 1 } else { 0 }
}

// A search that has ended, and the text of its answer.
struct Answered {
    text: Vec<u8>,
    journal: Journal,
    limited: bool,
}

// What is to be written: the answer of a search, or the text of the problem.
enum Reply {
    Answer(Answered),
    Model(Vec<u8>),
}

// Why there is no answer to write.
enum Stop {
    Words,
    TooLong,
    Model { line: u32, what: What },
    Read,
    Memory,
}

// The problem that the source gives.
fn read_problem<S: Source>(alloc: Global, source: &mut S) -> Result<Problem, Stop>
    ensures problem { IfOk result
        (λ problem. IsRead (S.left source.old) (S.left source.new) problem) }
    ensures within { OnOk result (ReadsWithin (S.left source.old) (S.left source.new)
        (S.faults source.old) (S.faults source.new) MOST_BYTES) }
    ensures words { IfErr result (λ e. e ≢ Stop.Words) }
    ensures cause { IfErr result (HasReason (S.left source.old) (S.left source.new)
        (S.faults source.old) (S.faults source.new)) }
{
    let bytes = match read_all(alloc, source, MOST_BYTES) {
        Ok(bytes) => bytes,
        Err(ReadEnd::Fault) => return Err(Stop::Read),
        Err(ReadEnd::TooLong) => return Err(Stop::TooLong),
        Err(ReadEnd::Memory) => return Err(Stop::Memory),
    };
    match read(alloc, &bytes) {
        Ok(problem) => Ok(problem),
        Err(ModelFault::At { line, what }) => Err(Stop::Model { line, what }),
        Err(ModelFault::Memory) => Err(Stop::Memory),
    }
}

// The problem that is to be solved: the one made from a number, or else the one that the source
// gives.
fn given_problem<S: Source>(
    alloc: Global,
    generate: Option<GenWish>,
    source: &mut S,
) -> Result<Problem, Stop>
    requires { IfSome generate AreSizes }
    ensures problem { IfOk result
        (λ problem. IsGiven generate (S.left source.old) (S.left source.new) problem) }
    ensures within { OnOk result (ReadsWithin (S.left source.old) (S.left source.new)
        (S.faults source.old) (S.faults source.new) MOST_BYTES) }
    ensures words { IfErr result (λ e. e ≢ Stop.Words) }
    ensures cause { IfErr result (HasReason (S.left source.old) (S.left source.new)
        (S.faults source.old) (S.faults source.new)) }
    ensures unread { is_some generate ≡ true → source.new ≡ source.old }
    ensures early { IfErr result (λ e. is_some generate ≡ true → IsEarly e) }
{
    let Some(
        GenWish {
            start,
            columns,
            rows,
        },
    ) = generate
    else {
        return read_problem(alloc, source);
    };
    match make(alloc, start, columns, rows) {
        Ok(problem) => Ok(problem),
        Err(AllocError) => Err(Stop::Memory),
    }
}

// Whether the answer has a line for each column: not where the problem was made.
fn has_columns(wish: &Wish) -> bool
    ensures { result ≡ shows_columns wish.now.generate }
{
    wish.generate.is_none()
}

// A number of whole units, in units of 10^-scale.
fn in_units(number: u32, scale: u32) -> u128
    requires few { number ≤ MOST_GAP }
    requires scale { scale ≤ 27 }
    ensures exact { result ≡ number * 10 ^ scale }
    ensures small { result ≤ 10 ^ 36 }
{
    u128::from(number) * 10u128.pow(scale)
}

// The settings of the wish, with its gap in the units of the problem's values.
fn settings_for(wish: &Wish, problem: &Problem) -> Settings
    requires { IsWithinRanges wish.now }
    ensures exact { result ≡ settings_for wish.now problem.now }
    ensures some_gap { pos 0 ≤ℤ result.gap }
    ensures few_gaps { result.gap ≤ℤ LARGEST_GAP }
{
    let _columns = problem.columns();
    let gap = in_units(wish.gap, problem.scale()) as i128;
    Settings {
        nodes: wish.settings.nodes,
        span: wish.settings.span,
        order: wish.settings.order,
        gap,
    }
}

// The text of the answer of a search by so many workers that has ended, and its journal.
fn told(
    alloc: Global,
    problem: &Arc<Problem>,
    wish: &Wish,
    _workers: u32,
    search: EndedSearch,
) -> Result<Answered, AllocError>
    requires searched { IsSearched problem.now.value (settings_for wish.now problem.now.value)
        _workers search }
    requires places { SplitsAt (IsSplitBy wish.now.half) problem.now.value (past_of search.tree) }
    ensures { IfOk result (λ answered. IsSolved _workers problem.now.value wish.now answered) }
{
    answers_are_true();
    let EndedSearch { tree, limited } = search;
    let answer = answer_text(alloc, problem, &tree.answer(), has_columns(wish))?;
    let held = tree.held();
    let journal = tree.into_journal();
    let text = with_log(alloc, wish.log, &journal, held, answer)?;
    Ok(Answered {
        text,
        journal,
        limited,
    })
}

// The text of an answer, behind the log of its search where one is asked for.
fn with_log(
    alloc: Global,
    log: bool,
    journal: &Journal,
    held: u64,
    answer: Vec<u8>,
) -> Result<Vec<u8>, AllocError>
    ensures { IfOk result (λ text. text.items ≡ log_lines log journal.now.entries held
        ++ answer.items) }
{
    if !log {
        return Ok(answer);
    }
    let mut text = log_text(alloc, journal)?;
    text.extend_from_slice(&held_line(alloc, held)?)?;
    text.extend_from_slice(&answer)?;
    Ok(text)
}

// The search of a problem's tree by seat 0, and the text of its answer.
fn solve_one(alloc: Global, problem: Problem, wish: &Wish) -> Result<Answered, AllocError>
    requires { IsWithinRanges wish.now }
    ensures { IfOk result (λ answered. IsSolved 0 problem wish.now answered) }
{
    let problem = Arc::new(alloc, problem)?;
    let settings = settings_for(wish, &problem);
    let search = search_one(alloc, &problem, settings, wish.cuts, wish.half)?;
    told(alloc, &problem, wish, 0, search)
}

// The search of a problem's tree by the wish's workers, and the text of its answer.
fn solve_many<R: Threads + Wait + Sync, G: Gate>(
    rt: &R,
    alloc: Global,
    problem: Problem,
    wish: &Wish,
    gate: &G,
) -> Result<Answered, AllocError>
    requires { IsWithinRanges wish.now }
    ensures { IfOk result (λ answered. IsSolved wish.now.workers problem wish.now answered) }
{
    let problem = Arc::new(alloc, problem)?;
    let settings = settings_for(wish, &problem);
    let workers = wish.workers;
    let search = search_many(
        rt, alloc, &problem, settings, workers, wish.cuts, wish.half, gate,
    )?;
    told(alloc, &problem, wish, workers, search)
}

// What the words ask for.
fn wish_of(alloc: Global, words: &[String], alone: bool) -> Result<Wish, Stop>
    ensures meant { IfOk result (λ wish. AskFor alone words.now wish) }
    ensures ranges { IfOk result IsWithinRanges }
    ensures words { IfErr result (λ e. e ≡ Stop.Words → MeanNothing alone words.now) }
    ensures early { IfErr result IsEarly }
{
    match read_words(alloc, words, alone) {
        Ok(wish) => Ok(wish),
        Err(WordsFault::Refused) => Err(Stop::Words),
        Err(WordsFault::Memory) => Err(Stop::Memory),
    }
}

// What the words ask for, and the problem that it is asked of.
struct Asked {
    wish: Wish,
    problem: Problem,
}

// Reads the words, and then reads or makes the problem.
fn ask<S: Source>(
    alloc: Global,
    words: &[String],
    alone: bool,
    source: &mut S,
) -> Result<Asked, Stop>
    ensures asked { IfOk result (IsAsked alone words.now (S.left source.old) (S.left source.new)
        (S.faults source.old) (S.faults source.new)) }
    ensures ranges { IfOk result (λ asked. IsWithinRanges asked.wish) }
    ensures stopped { IfErr result (HasStopped alone words.now (S.left source.old)
        (S.left source.new) (S.faults source.old) (S.faults source.new)) }
    ensures unread { MeanNothing alone words.now → source.new ≡ source.old }
    ensures untouched { AskToMake alone words.now → source.new ≡ source.old }
{
    words_mean_one_wish();
    let wish = wish_of(alloc, words, alone)?;
    let problem = given_problem(alloc, wish.generate, source)?;
    Ok(Asked { wish, problem })
}

// The answer of a search by seat 0 to what the words ask for, or the text of the problem.
fn answer_one<S: Source>(alloc: Global, words: &[String], source: &mut S) -> Result<Reply, Stop>
    ensures replied { IsReplied true words.now (S.left source.old) (S.left source.new)
        (S.faults source.old) (S.faults source.new) result }
    ensures unread { MeanNothing true words.now → source.new ≡ source.old }
    ensures untouched { AskToMake true words.now → source.new ≡ source.old }
{
    let Asked { wish, problem } = ask(alloc, words, true, source)?;
    if wish.write {
        return model_text(alloc, &problem);
    }
    match solve_one(alloc, problem, &wish) {
        Ok(answered) => Ok(Reply::Answer(answered)),
        Err(AllocError) => Err(Stop::Memory),
    }
}

// The answer of a search by workers to what the words ask for, or the text of the problem.
fn answer_many<R: Threads + Wait + Sync, S: Source, G: Gate>(
    rt: &R,
    alloc: Global,
    words: &[String],
    source: &mut S,
    gate: &G,
) -> Result<Reply, Stop>
    ensures replied { IsReplied false words.now (S.left source.old) (S.left source.new)
        (S.faults source.old) (S.faults source.new) result }
    ensures unread { MeanNothing false words.now → source.new ≡ source.old }
    ensures untouched { AskToMake false words.now → source.new ≡ source.old }
{
    let Asked { wish, problem } = ask(alloc, words, false, source)?;
    if wish.write {
        return model_text(alloc, &problem);
    }
    match solve_many(rt, alloc, problem, &wish, gate) {
        Ok(answered) => Ok(Reply::Answer(answered)),
        Err(AllocError) => Err(Stop::Memory),
    }
}

// The text of the problem, which is not solved.
fn model_text(alloc: Global, problem: &Problem) -> Result<Reply, Stop>
    ensures text { IfOk result (λ reply. IsModelOf problem.now reply) }
    ensures memory { IfErr result (λ e. e ≡ Stop.Memory) }
{
    match write(alloc, problem) {
        Ok(text) => Ok(Reply::Model(text)),
        Err(AllocError) => Err(Stop::Memory),
    }
}

// Ends with the answer of a search, as far as the sink takes it.
fn answer_written<K: Sink>(sink: &mut K, answered: Answered) -> Ended
    ensures journal { result.journal ≡ Some answered.journal }
    ensures decided { result.status ≡ 0 → answered.limited ≡ false }
    ensures limited { result.status ≡ 1 → answered.limited ≡ true }
    ensures whole { result.status ≤ 1 → Appends (K.kept sink.old) (K.kept sink.new)
        answered.text.items }
    ensures no_fault { result.status ≤ 1 → K.faults sink.new ≡ K.faults sink.old }
    ensures part { result.status ≡ 5 → AppendsPrefix (K.kept sink.old) (K.kept sink.new)
        answered.text.items }
    ensures cause { result.status ≡ 5 → Rose (K.faults sink.old) (K.faults sink.new) }
    ensures others { (result.status ≤ 1) ⊎ (result.status ≡ 5) }
{
    let Answered {
        text,
        journal,
        limited,
    } = answered;
    let status = match write_out(sink, &text) {
        Ok(()) => answered_status(limited),
        Err(Failed) => 5,
    };
    Ended {
        status,
        journal: Some(journal),
    }
}

// Ends with the text of the problem, as far as the sink takes it.
fn model_written<K: Sink>(sink: &mut K, text: &[u8]) -> Ended
    ensures journal { result.journal ≡ None }
    ensures status { (result.status ≡ 0) ⊎ (result.status ≡ 5) }
    ensures whole { result.status ≡ 0 → Appends (K.kept sink.old) (K.kept sink.new) text.now }
    ensures no_fault { result.status ≡ 0 → K.faults sink.new ≡ K.faults sink.old }
    ensures part { result.status ≡ 5 → AppendsPrefix (K.kept sink.old) (K.kept sink.new) text.now }
    ensures cause { result.status ≡ 5 → Rose (K.faults sink.old) (K.faults sink.new) }
{
    let status = match write_out(sink, text) {
        Ok(()) => 0,
        Err(Failed) => 5,
    };
    Ended {
        status,
        journal: None,
    }
}

/// Ends a run whose words can't be had, without reading: as one of wrong words, or for want of
/// memory.
pub fn end_without_words<K: Sink>(sink: &mut K, fault: WordsFault) -> Ended
    ensures status { result.status ≡ words_status fault }
    ensures journal { result.journal ≡ None }
    ensures line { WritesLine (K.kept sink.old) (K.kept sink.new) (K.faults sink.old)
        (K.faults sink.new) (fault_line result.status) }
{
    match fault {
        WordsFault::Refused => stopped(sink, 2, b"fault words\n"),
        WordsFault::Memory => stopped(sink, 6, b"fault memory\n"),
    }
}

// Writes the whole text and finishes the sink.
fn write_out<K: Sink>(sink: &mut K, text: &[u8]) -> Result<(), Failed>
    ensures whole { OnOk result (Appends (K.kept sink.old) (K.kept sink.new) text.now) }
    ensures part { OnErr result (AppendsPrefix (K.kept sink.old) (K.kept sink.new) text.now) }
    ensures cause { HasCause (K.faults sink.old) (K.faults sink.new) result }
{
    write_all(sink, text)?;
    sink.finish()
}

// Ends with a status, whose line is written as far as the sink takes it.
fn stopped<K: Sink>(sink: &mut K, status: u8, line: &[u8]) -> Ended
    ensures status { result.status ≡ status }
    ensures journal { result.journal ≡ None }
    ensures line { WritesLine (K.kept sink.old) (K.kept sink.new) (K.faults sink.old)
        (K.faults sink.new) line.now }
{
    let _ = write_out(sink, line);
    Ended {
        status,
        journal: None,
    }
}

// Ends with the line that tells a file's first fault, or for want of memory.
fn refused<K: Sink>(alloc: Global, sink: &mut K, line: u32, what: What) -> Ended
    ensures journal { result.journal ≡ None }
    ensures status { (result.status ≡ 3) ⊎ (result.status ≡ 6) }
    ensures model { result.status ≡ 3
        → WritesLine (K.kept sink.old) (K.kept sink.new) (K.faults sink.old) (K.faults sink.new)
        (model_line (record { line = line; what = what })) }
    ensures memory { result.status ≡ 6 → WritesLine (K.kept sink.old) (K.kept sink.new)
        (K.faults sink.old) (K.faults sink.new) (fault_line 6) }
{
    match model_line(alloc, line, what) {
        Ok(text) => stopped(sink, 3, &text),
        Err(AllocError) => stopped(sink, 6, b"fault memory\n"),
    }
}
