//! The top call.

ghost use Rattle.std.specs.Prelude.{◌≡◌, ◌↔◌, ◌⊎◌, ℕ, List, [], Some, IsNone, IfOk, IfSome, ◌≤◌, ◌+◌, ◌<◌, ◌^◌};
ghost use Rattle.sc_outside.specs.Faults.{Rose};
ghost use Rattle.sc_outside.specs.Told.{Took, TookPart};
ghost use Rattle.sc_app.specs.Answer.{status_of, text_of};
ghost use Rattle.sc_app.specs.Codes.{code_of};
ghost use Rattle.sc_app.specs.Forms.{IsForm, HasNoForm, IsInRange, bytes_of};
ghost use Rattle.sc_app.specs.Kinds.{kind_of, IsDecided, IsQuiet, IsReadToTheEnd, IsExcused};
ghost use Rattle.sc_app.specs.Reading.{reads, given, input_for, most_turns, most_calls, MayRead, NeedsNoSource, ReadsAll, ReadPastLimit, ReadWithinLimit, IsUntouched};
ghost use Rattle.sc_app.specs.inside.Reading.{Fits};
ghost use Rattle.sc_app.specs.Notes.{note_of};
ghost use Rattle.sc_app.specs.Answers.{Responds, Answers, HasOneAnswer, IsAccepted, IsOwnAnswer, EndsBy, MayAnswer, TookUpTo, IsCall};
ghost use Rattle.sc_app.specs.Check.{ShowsLeast};
ghost use Rattle.sc_app.specs.Ball.{OfItsChains, DoneFor, IsStopped};
ghost use Rattle.sc_app.specs.Generate.{GenerateResponds};
ghost use Rattle.sc_app.specs.Scl.{ShowsScl, OfItsChain, IsInfinite, IsSolved, IsOverBudget, IsTooWide, HasTooManySides};
ghost use Rattle.sc_app.specs.declared.command.Command.{Command as AnyCommand};
ghost use Rattle.sc_app.specs.declared.command.Command.TheVariants as commands;
ghost use Rattle.sc_app.specs.declared.command.Reading.TheVariants as readings;
ghost use Rattle.sc_app.specs.declared.status.Status.{Status as AnyStatus};

use crate::answer::Answer;
use crate::ball::answer_ball;
use crate::check::answer_check;
use crate::command::{Command, Reading, command_of};
use crate::generate::answer_generate;
use crate::note::write_note;
use crate::scl::answer_scl;
use crate::shape::answer_shape;
use crate::status::{Status, What};
use crate::surface::answer_surface;
use crate::svg::answer_svg;
use sc_outside::{ReadAll, Sink, Source, read_all, write_all};
use std::alloc::{AllocError, Global};

/// The answer of a command to its input.
fn respond(alloc: Global, command: Command, input: &[u8]) -> Result<Answer, AllocError>
    requires fits { Fits (reads command) input.now }
    requires in_range { IsInRange command }
    ensures { IfOk result (λ answer. Responds command input.now (status_of answer) (text_of answer)) }
{
    match command {
        Command::Surface => answer_surface(alloc, input),
        Command::Shape => answer_shape(alloc, input),
        Command::Check => answer_check(alloc, input),
        Command::Svg => answer_svg(alloc, input),
        Command::Scl { pivots } => answer_scl(alloc, pivots, input),
        Command::Ball { pivots } => answer_ball(alloc, pivots, input),
        Command::Generate { seed, letters } => answer_generate(alloc, seed, letters),
    }
}

/// Hands over the text of an answer.
fn deliver<O: Sink>(answer: &Answer, out: &mut O) -> Status
    ensures { ((result ≡ status_of answer.now) × Took (O.taken out.old) (O.taken out.new) (text_of answer.now))
        ⊎ ((result ≡ Status.WriteFault) × Rose (O.faults out.old) (O.faults out.new) (O.saturated out.new)
        × TookPart (O.taken out.old) (O.taken out.new) (text_of answer.now)) }
{
    match write_all(out, answer.text()) {
        Ok(()) => answer.status(),
        Err(_) => Status::WriteFault,
    }
}

/// Answers the input that a command was given.
fn answer_input<O: Sink>(alloc: Global, command: Command, input: &[u8], out: &mut O) -> Status
    requires fits { Fits (reads command) input.now }
    requires in_range { IsInRange command }
    ensures read { NeedsNoSource (kind_of result) }
    ensures answer { EndsBy (kind_of result) command (Some input.now) ⊥
        (Rose (O.faults out.old) (O.faults out.new) (O.saturated out.new))
        (O.taken out.old) (O.taken out.new) result }
{
    match respond(alloc, command, input) {
        Ok(answer) => deliver(&answer, out),
        Err(_) => Status::Memory,
    }
}

/// Reads at most so many bytes and answers them.
fn serve_input<S: Source, O: Sink>(
    alloc: Global,
    command: Command,
    limit: usize,
    source: &mut S,
    out: &mut O,
) -> Status
    requires limit { reads command ≡ readings.AtMost limit }
    requires readable { limit < 2 ^ 31 }
    requires in_range { IsInRange command }
    ensures turns { S.calls source.new ≤ S.calls source.old + limit + 1 }
    ensures read { MayRead (readings.AtMost limit) (kind_of result) (S.left source.old) (S.left source.new)
        (S.faults source.old) (S.faults source.new) }
    ensures answer { EndsBy (kind_of result) command (S.left source.old)
        (Rose (S.faults source.old) (S.faults source.new) (S.saturated source.new))
        (Rose (O.faults out.old) (O.faults out.new) (O.saturated out.new))
        (O.taken out.old) (O.taken out.new) result }
{
    match read_all(alloc, source, limit) {
        Ok(input) => answer_input(alloc, command, input.as_slice(), out),
        Err(ReadAll::Long) => Status::Large(What::Bytes),
        Err(ReadAll::ReadFault) => Status::ReadFault,
        Err(ReadAll::Memory) => Status::Memory,
    }
}

fn serve<S: Source, O: Sink>(alloc: Global, command: Command, source: &mut S, out: &mut O) -> Status
    requires { IsInRange command }
    ensures turns { S.calls source.new ≤ S.calls source.old + most_calls (reads command) }
    ensures read { MayRead (reads command) (kind_of result) (S.left source.old) (S.left source.new)
        (S.faults source.old) (S.faults source.new) }
    ensures answer { EndsBy (kind_of result) command (given (reads command) (S.left source.old))
        (Rose (S.faults source.old) (S.faults source.new) (S.saturated source.new))
        (Rose (O.faults out.old) (O.faults out.new) (O.saturated out.new))
        (O.taken out.old) (O.taken out.new) result }
{
    match command.reads() {
        Reading::Nothing => answer_input(alloc, command, &[], out),
        Reading::AtMost(limit) => serve_input(alloc, command, limit, source, out),
    }
}

/// Serves the command that the words ask for.
fn serve_words<S: Source, O: Sink>(
    alloc: Global,
    words: &Vec<String>,
    source: &mut S,
    out: &mut O,
) -> Status
    ensures turns { S.calls source.new ≤ S.calls source.old + most_turns (bytes_of words.now.items) }
    ensures answer { MayAnswer (bytes_of words.now.items) (S.left source.old) (S.left source.new)
        (S.faults source.old) (S.faults source.new)
        (Rose (S.faults source.old) (S.faults source.new) (S.saturated source.new))
        (Rose (O.faults out.old) (O.faults out.new) (O.saturated out.new))
        (O.taken out.old) (O.taken out.new) result }
{
    match command_of(words) {
        None => Status::Usage,
        Some(command) => serve(alloc, command, source, out),
    }
}

/// Reads the input of the command that `words` ask for, writes its text to `out`, and a line to `notes` for each status
/// but `Done`. `words` are the arguments after the program's name. All computation ends before the first byte goes out.
pub fn run<S: Source, O: Sink, E: Sink>(
    alloc: Global,
    words: &Vec<String>,
    source: &mut S,
    out: &mut O,
    notes: &mut E,
) -> Status
    // Usage exactly where the words match no form; then nothing was read.
    ensures usage { (result ≡ Status.Usage) ↔ HasNoForm (bytes_of words.now.items) }
    ensures unread { result ≡ Status.Usage → (S.left source.new ≡ S.left source.old) × (S.faults source.new ≡ S.faults source.old) }
    // Nor is anything read for a command that reads nothing, whatever its status.
    ensures untouched { (c : AnyCommand) → IsForm c (bytes_of words.now.items) → reads c ≡ readings.Nothing
        → IsUntouched (S.left source.old) (S.left source.new) (S.faults source.old) (S.faults source.new) }
    // The source is asked at most once a byte of the command's limit and once more, and not at all where nothing is
    // read.
    ensures turns { S.calls source.new ≤ S.calls source.old + most_turns (bytes_of words.now.items) }

    // After Large(Bytes) the source gave one byte more than the limit, with the answers to what it had every byte,
    // and before Memory not more than the limit. What a source gives in a call that fails is its own affair.
    ensures read_past_limit { result ≡ Status.Large What.Bytes → (c : AnyCommand)
        × IsForm c (bytes_of words.now.items) × ReadPastLimit c (S.left source.old) (S.left source.new) }
    ensures read_whole { IsReadToTheEnd result → (c : AnyCommand)
        × IsForm c (bytes_of words.now.items) × ReadsAll (reads c) (S.left source.old) (S.left source.new) }
    ensures read_within_limit { result ≡ Status.Memory → (c : AnyCommand)
        × IsForm c (bytes_of words.now.items) × ReadWithinLimit c (S.left source.old) (S.left source.new) }

    // A fault is answered only where that object's count rose.
    ensures read_fault { result ≡ Status.ReadFault → Rose (S.faults source.old) (S.faults source.new) (S.saturated source.new) }
    ensures write_fault { result ≡ Status.WriteFault → Rose (O.faults out.old) (O.faults out.new) (O.saturated out.new) }

    // Where the input is told, every other status but Memory is an answer to it, and `out` took its text.
    ensures answered { IsDecided result → IfSome (input_for (bytes_of words.now.items) (S.left source.old)) (λ input.
        (text : List ℕ) × Answers (bytes_of words.now.items) input result text × Took (O.taken out.old) (O.taken out.new) text) }
    // Where the input has one right answer, that is what comes, unless a stream fails or memory runs out.
    ensures complete { IfSome (input_for (bytes_of words.now.items) (S.left source.old)) (λ input.
        HasOneAnswer (bytes_of words.now.items) input → (status : AnyStatus) (text : List ℕ)
        → Answers (bytes_of words.now.items) input status text
        → ((result ≡ status) × Took (O.taken out.old) (O.taken out.new) text) ⊎ IsExcused result) }
    // To an input that the command accepts an answer of its own comes where no stream fails, or there was no memory.
    ensures completed { (c : AnyCommand) → IsForm c (bytes_of words.now.items)
        → IfSome (given (reads c) (S.left source.old)) (λ input. IsAccepted c input
        → ¬ Rose (S.faults source.old) (S.faults source.new) (S.saturated source.new)
        → ¬ Rose (O.faults out.old) (O.faults out.new) (O.saturated out.new)
        → IsOwnAnswer c input (O.taken out.old) (O.taken out.new) result ⊎ (result ≡ Status.Memory)) }
    // Where `check` is done, `out` took the value of a certificate whose surface is least over its chain.
    ensures least { result ≡ Status.Done → IsForm commands.Check (bytes_of words.now.items) → IfSome (S.left source.old)
        (λ input. (text : List ℕ) × ShowsLeast input text × Took (O.taken out.old) (O.taken out.new) text) }
    // Where `scl` is done, `out` took one of two texts. Either it is `infinite G T`: G is the first generator whose
    // total over the lines as written isn't 0, and T that total. Or every total is 0, and it is the text of a
    // certificate over the cyclically reduced chain of the lines: its sides are a labelled fatgraph whose boundary
    // runs as many times round the chain as it has copies, its value is the fraction -chi/2n of that fatgraph, and no
    // labelled fatgraph over any number of copies of the chain has a smaller one.
    ensures scl { result ≡ Status.Done → (pivots : ℕ) → IsForm (commands.Scl pivots) (bytes_of words.now.items) → IfSome (S.left source.old)
        (λ input. (text : List ℕ) × ShowsScl input text × Took (O.taken out.old) (O.taken out.new) text) }
    // The certificate is that of a solution besides: its journal is lawful and has at most as many pivots as the
    // words allow, its last basis is optimal, the list is the lift of its prices, the sides are glued of its
    // polygons, the list is tight for them, the tables vouch for the list and hold the least totals, and all
    // conditions of a certificate hold, in its ranges, so that the text is one that `check` reads.
    ensures solution { result ≡ Status.Done → (pivots : ℕ) → IsForm (commands.Scl pivots) (bytes_of words.now.items) → IfSome (S.left source.old)
        (λ input. (text : List ℕ) × OfItsChain input (λ c. IsInfinite c text ⊎ IsSolved c pivots text) × Took (O.taken out.old) (O.taken out.new) text) }
    // Budget, Wide and Sides come for balanced chains alone, each with the evidence of the text that `out` took: so
    // many lawful pivots and a polygon that improves; lawful pivots and an operation that is too wide after them;
    // lawful pivots to an optimal basis and the part whose denominator leads to too many sides.
    ensures budget { result ≡ Status.Budget → (pivots : ℕ) → IsForm (commands.Scl pivots) (bytes_of words.now.items) → IfSome (S.left source.old)
        (λ input. (text : List ℕ) × OfItsChain input (λ c. IsOverBudget c pivots text) × Took (O.taken out.old) (O.taken out.new) text) }
    ensures wide { result ≡ Status.Wide → (pivots : ℕ) → IsForm (commands.Scl pivots) (bytes_of words.now.items) → IfSome (S.left source.old)
        (λ input. (text : List ℕ) × OfItsChain input (λ c. IsTooWide c pivots text) × Took (O.taken out.old) (O.taken out.new) text) }
    ensures sides { result ≡ Status.Sides → (pivots : ℕ) → IsForm (commands.Scl pivots) (bytes_of words.now.items) → IfSome (S.left source.old)
        (λ input. (text : List ℕ) × OfItsChain input (λ c. HasTooManySides c pivots text) × Took (O.taken out.old) (O.taken out.new) text) }
    // `gen` reads nothing. Where it is done, `out` took the summary of a solution for the chain that the seed draws,
    // by at most as many pivots as `scl` makes without a number: the value is least, and columns and pivots are those
    // of the solution's journal. Budget, Wide and Sides come with the evidence that `scl` shows for that chain.
    ensures generated { (seed letters : ℕ) → IsForm (commands.Generate seed letters) (bytes_of words.now.items) → IsDecided result
        → (text : List ℕ) × GenerateResponds seed letters result text × Took (O.taken out.old) (O.taken out.new) text }
    // Where `ball` is done, `out` took one of three texts. It is `infinite first G T` where the first chain isn't
    // balanced, with its first generator whose total isn't 0 and that total; `infinite second G T` where the first is
    // balanced and the second isn't; and else the text of the fan of the two cyclically reduced chains, in the ranges
    // of one that is read: its corners are primitive directions from 0, -1 through 1, 0 to 0, 1 with their values,
    // each edge's list covers its quadrant's chain, is tight at both ends, and tells the values on the whole cone
    // between them.
    ensures ball { result ≡ Status.Done → (pivots : ℕ) → IsForm (commands.Ball pivots) (bytes_of words.now.items) → IfSome (S.left source.old)
        (λ input. (text : List ℕ) × OfItsChains input (λ first second. DoneFor first second text) × Took (O.taken out.old) (O.taken out.new) text) }
    // Budget, Wide and Sides come for two balanced chains alone, and the text that `out` took shows the search so far
    // and what stopped it: a direction at which `scl`'s evidence comes for its chain, a crossing that is too wide, or
    // a next direction of too great length.
    ensures ball_budget { result ≡ Status.Budget → (pivots : ℕ) → IsForm (commands.Ball pivots) (bytes_of words.now.items) → IfSome (S.left source.old)
        (λ input. (text : List ℕ) × OfItsChains input (λ first second. IsStopped first second pivots Status.Budget text) × Took (O.taken out.old) (O.taken out.new) text) }
    ensures ball_wide { result ≡ Status.Wide → (pivots : ℕ) → IsForm (commands.Ball pivots) (bytes_of words.now.items) → IfSome (S.left source.old)
        (λ input. (text : List ℕ) × OfItsChains input (λ first second. IsStopped first second pivots Status.Wide text) × Took (O.taken out.old) (O.taken out.new) text) }
    ensures ball_sides { result ≡ Status.Sides → (pivots : ℕ) → IsForm (commands.Ball pivots) (bytes_of words.now.items) → IfSome (S.left source.old)
        (λ input. (text : List ℕ) × OfItsChains input (λ first second. IsStopped first second pivots Status.Sides text) × Took (O.taken out.old) (O.taken out.new) text) }
    // After a fault of `out` it has taken a part of the text of an answer.
    ensures broken { result ≡ Status.WriteFault → IfSome (input_for (bytes_of words.now.items) (S.left source.old)) (λ input.
        (status : AnyStatus) × (text : List ℕ)
        × Answers (bytes_of words.now.items) input status text × TookPart (O.taken out.old) (O.taken out.new) text) }
    // Nothing goes to `out` with a status that has no text.
    ensures quiet { IsQuiet result → Took (O.taken out.old) (O.taken out.new) [] }

    // `notes` took the line of the status, or a prefix of it where its count rose.
    ensures noted { TookUpTo (E.taken notes.old) (E.taken notes.new) (note_of result) }
    ensures whole_note { Rose (E.faults notes.old) (E.faults notes.new) (E.saturated notes.new)
        ⊎ Took (E.taken notes.old) (E.taken notes.new) (note_of result) }

    // All this in one: how the words, the three streams and the status go together.
    ensures call { IsCall (bytes_of words.now.items) (S.left source.old) (S.left source.new)
        (S.faults source.old) (S.faults source.new)
        (Rose (S.faults source.old) (S.faults source.new) (S.saturated source.new))
        (Rose (O.faults out.old) (O.faults out.new) (O.saturated out.new))
        (Rose (E.faults notes.old) (E.faults notes.new) (E.saturated notes.new))
        (O.taken out.old) (O.taken out.new) (E.taken notes.old) (E.taken notes.new) result }
{
    let status = serve_words(alloc, words, source, out);
    // The status stays what it is where its note can't be written.
    let _ = write_note(&status, notes);
    status
}

/// What the program does with its words and its streams: it runs them and ends with the code of the status. Where the
/// words couldn't be had for want of memory, it ends with the code of that and leaves the streams alone.
pub fn run_to_code<S: Source, O: Sink, E: Sink>(
    alloc: Global,
    words: Option<Vec<String>>,
    source: &mut S,
    out: &mut O,
    notes: &mut E,
) -> u8
    ensures no_words { IsNone words → (result ≡ 10) × (S.calls source.new ≡ S.calls source.old)
        × IsUntouched (S.left source.old) (S.left source.new) (S.faults source.old) (S.faults source.new)
        × Took (O.taken out.old) (O.taken out.new) [] × Took (E.taken notes.old) (E.taken notes.new) [] }
    ensures turns { IfSome words (λ all. S.calls source.new ≤ S.calls source.old + most_turns (bytes_of all.items)) }
    ensures ran { IfSome words (λ all. (status : AnyStatus) × (result ≡ code_of status)
        × IsCall (bytes_of all.items) (S.left source.old) (S.left source.new)
        (S.faults source.old) (S.faults source.new)
        (Rose (S.faults source.old) (S.faults source.new) (S.saturated source.new))
        (Rose (O.faults out.old) (O.faults out.new) (O.saturated out.new))
        (Rose (E.faults notes.old) (E.faults notes.new) (E.saturated notes.new))
        (O.taken out.old) (O.taken out.new) (E.taken notes.old) (E.taken notes.new) status) }
{
    match words {
        Some(words) => run(alloc, &words, source, out, notes).code(),
        None => Status::Memory.code(),
    }
}
