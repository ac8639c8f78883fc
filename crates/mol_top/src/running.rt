//! One command, from its words to its answer.
ghost use Rattle.std.specs.Prelude.{◌≡◌, IfOk, IfErr};
ghost use Rattle.std.specs.Option.{ForSome};
ghost use Rattle.mol_outside.specs.Contents.{Contents};
ghost use Rattle.mol_top.specs.Carried.{CarriesOwn, WritesOwn};
ghost use Rattle.mol_top.specs.Command.{command, paths_of};
ghost use Rattle.mol_top.specs.Outcome.{HasCause, WritesNothing, Says, Leaves, IsPrefix, IsSameInEitherOrder};
ghost use Rattle.mol_top.specs.Output.{IsReady};
ghost use Rattle.mol_top.specs.Outside.{OnlyReads, state, store};
ghost use Rattle.mol_top.specs.Prepared.{IsStopped, Prepares};
ghost use Rattle.mol_top.specs.ReadBack.{FilesReadBack};
ghost use Rattle.mol_top.specs.Words.{command_of};

use crate::Status;
use crate::checking::prepare_check;
use crate::command::{Command, parse};
use crate::formatting::prepare_fmt;
use crate::listing::prepare_ids;
use crate::merging::prepare_merge;
use crate::output::{Work, carry_out, refuse};
use crate::refusal::Refusal;
use crate::replaying::prepare_replay;
use mol_base::{List, Text};
use mol_outside::{Files, Sink};
use std::alloc::Global;

/// Runs one command over a store of files and a sink for what is printed.
///
/// `words` are the words after the program's name. `check BASE` tells whether the sources below BASE are a clean program: each name in
/// them has a meaning, and keeps it in the files that the program is spelled as. `fmt BASE OUT` writes these files, in the one layout,
/// below OUT. `ids BASE` prints the digest of that program, by which a log names its base, and its identities. `replay BASE LOG OUT` writes
/// the files of the program that the log leaves of it, below OUT. `merge BASE LOG1 LOG2 OUT` merges two logs over the files below BASE: it
/// writes the merged files below OUT and then the merged log as `OUT/merged.mol`, or prints how the logs conflict. Everything that is
/// written is made before the first write.
///
/// Each status comes where its condition holds, and none beside `OutOfMemory` where its condition does not:
///
/// | status | comes where |
/// |---|---|
/// | `Done` | nothing refuses the command, and all was written and printed |
/// | `Conflicts` | nothing refuses a merge, the logs conflict in so many places, and all was printed |
/// | `Usage` | the words are no row of the usage text; an empty word is no path |
/// | `BaseRefused(Source(..))` | the files below BASE are no program: the first file that is no source, else the first fault of names |
/// | `BaseRefused(Unclean(..))` | they are a program that is not clean: its first fault |
/// | `LogRefused(k, Form(..))` | the log of this number is not of the form of a log: the first thing that is wrong with it |
/// | `LogRefused(2, SharedTag(..))` | both logs of a merge have this tag: the least one |
/// | `LogRefused(k, Replay(..))` | the log was recorded over another base, an entry of it does not apply, or what it leaves is not clean |
/// | `ReadFailed` | a listing or a read of this path of the command failed |
/// | `Missing` | no file below BASE ends in `.java`, or an input file is not there |
/// | `WriteFailed` | the write of this file below OUT failed, or for the empty path the put of what is printed |
/// | `OutOfMemory` | memory ran out, of which nothing is said |
/// | `OutInUse` | a file lies below OUT: the least by its path |
/// | `Limit` | a number passes its limit: of files, of bytes of a file or of all, of the height of a tree, or of a log its bytes or entries |
///
/// Of several refusals the first in the order of the command comes: the words, the base, the logs, OUT, what the logs leave, what is written.
pub fn run<F: Files, S: Sink>(
    alloc: Global,
    words: &List<Text>,
    files: &mut F,
    out: &mut S,
) -> Status
    // Each answer has its cause.
    ensures cause { HasCause (command words.now) (state F.Files S.Sink files.old out.old) (state F.Files S.Sink files.new out.new) result }

    // What was not read, is missing, is in use or was not written has a path of the command, whatever the store tells; a number is above its
    // limit.
    ensures carries { ForSome (command words.now) (λ c. CarriesOwn (paths_of c) result) }

    // Without success no file is written.
    ensures kept { WritesNothing result → F.holds files.new ≡ F.holds files.old }

    // A refusal prints its line.
    ensures line { Says (command words.now) (state F.Files S.Sink files.old out.old) (state F.Files S.Sink files.new out.new) result }

    // A command leaves its files and its report, and conflicts leave theirs.
    ensures outcome { Leaves (command words.now) (state F.Files S.Sink files.old out.old) (state F.Files S.Sink files.new out.new) result }

    // A write that fails leaves a prefix.
    ensures prefix { IsPrefix (command words.now) (state F.Files S.Sink files.old out.old) (state F.Files S.Sink files.new out.new) result }

    // What `fmt`, `replay` and `merge` write reads back as the trees of the program, and is in the one layout itself.
    ensures read_back { ForSome (command words.now) (λ c. (held : Contents) → FilesReadBack c held) }

    // What a merge comes to, it comes to with its logs in the other order.
    ensures either_order { ForSome (command words.now) (λ c. (held : Contents) → IsSameInEitherOrder c held) }
{
    match parse(words.items()) {
        None => refuse(alloc, Refusal::usage(), out),
        Some(command) => match prepare(alloc, command, files) {
            Err(refusal) => refuse(alloc, refusal, out),
            Ok(work) => carry_out(alloc, work, files, out),
        },
    }
}

/// All that a command writes and prints. Nothing is written.
fn prepare<F: Files>(alloc: Global, command: Command<'_>, files: &mut F) -> Result<Work, Refusal>
    ensures only_reads { OnlyReads (store F.Files files.old) (store F.Files files.new) }
    ensures ready { IfOk result IsReady }
    ensures work { IfOk result (Prepares (command_of command.entry) (store F.Files files.old)) }
    ensures inside { IfOk result (WritesOwn (paths_of (command_of command.entry))) }
    ensures stop { IfErr result (IsStopped (command_of command.entry) (store F.Files files.old) (store F.Files files.new)) }
    ensures carries { IfErr result (λ refusal. CarriesOwn (paths_of (command_of command.entry)) refusal.status) }
{
    match command {
        Command::Merge(words) => prepare_merge(alloc, words, files),
        Command::Check(words) => prepare_check(alloc, words, files),
        Command::Fmt(words) => prepare_fmt(alloc, words, files),
        Command::Ids(words) => prepare_ids(alloc, words, files),
        Command::Replay(words) => prepare_replay(alloc, words, files),
    }
}
