ghost use Rattle.std.specs.Prelude.{◌≡◌, IfOk, IfErr, IfSome, IsOk, MatchResult, option_map};
ghost use Rattle.tool_io.specs.Names.{AreRead};
ghost use Rattle.tool_io.specs.Reading.{CountsReads, IsOnlyRead};
ghost use Rattle.cfi_tool.specs.Explains.{ExplainsRequest};
ghost use Rattle.tool_common.specs.Reads.{IsFault, IsStop, IsTooLong, file_names};
ghost use Rattle.cfi_tool.specs.Request.{IsKept, IsRight, IsWordsEnd, TakenMarked, TakenPlainly, asked, names_of, request_of, taken};
ghost use Rattle.tool_words.specs.Reading.{request_of as words_of, spelled};

use crate::outcome::Outcome;
use std::alloc::Global;
use tool_common::Stop;
use tool_images::{RunRequest, run_files, verify_files};
use tool_io::Files;
use tool_objects::{
    CompareRequest, DemoRequest, RewriteRequest, compare_files, demonstrate, rewrite_files,
};
use tool_words::{Asked, VerifyWords, WordsEnd, read_words};

/// What the words of a command line ask for.
#[derive(Drop)]
pub(crate) enum Request<'a> {
    /// `rewrite`, `harden` or `link`.
    Rewrite(RewriteRequest<'a>),
    Verify(VerifyWords<'a>),
    Run(RunRequest<'a>),
    /// `compare` or `compare-link`.
    Compare(CompareRequest<'a>),
    Demo(DemoRequest),
}

/// What the words of a command line ask for.
#[tactic(auto, using(crate::proofs::Taken::taken_plainly, crate::proofs::Taken::taken_marked, crate::proofs::Taken::kept, crate::proofs::Taken::not_kept, crate::proofs::Taken::words_end))]
pub(crate) fn requested<'a>(alloc: Global, words: &'a [String]) -> Result<Request<'a>, WordsEnd>
    ensures plain { TakenPlainly (spelled words.now) }
    ensures marked { TakenMarked (spelled words.now) }
    ensures taken { MatchResult result (IsKept (taken (spelled words.now))) (IsWordsEnd (taken (spelled words.now))) }
{
    let asked = read_words(alloc, words)?;
    match Request::of(asked) {
        Some(request) => Ok(request),
        None => Err(WordsEnd::Refused),
    }
}

impl<'a> Request<'a> {
    /// What a command is asked for, if a number is as it should be and names of files to write are apart.
    fn of(words: Asked<'a>) -> Option<Self>
        ensures asked { option_map asked result ≡ request_of (words_of words.entry) }
        ensures right { IfSome result (λ request. IsRight (asked request)) }
    {
        Some(match words {
            Asked::Rewrite(words) => Request::Rewrite(RewriteRequest::of(words)?),
            Asked::Verify(words) => Request::Verify(words),
            Asked::Run(words) => Request::Run(RunRequest::of(words)?),
            Asked::Compare(words) => Request::Compare(CompareRequest::of(words)?),
            Asked::Demo(words) => Request::Demo(DemoRequest::of(words)?),
            Asked::Harden(words) => Request::Rewrite(RewriteRequest::hardening(words)?),
            Asked::Link(words) => Request::Rewrite(RewriteRequest::linking(words)?),
            Asked::CompareLink(words) => Request::Compare(CompareRequest::linking(words)?),
        })
    }

    /// What the command comes to, unless it stops at one of its files.
    pub(crate) fn answer<F: Files>(
        &self,
        alloc: Global,
        files: &mut F,
    ) -> Result<Outcome<'a>, Stop<'a>>
        requires right { IsRight (asked self.now) }
        ensures explained { IfOk result (ExplainsRequest (F.content files.old) (asked self.now)) }
        ensures stopped { IfErr result
            (IsStop (F.content files.old) (F.failed_name files.new) (names_of (asked self.now))) }
        ensures only_read { IsOnlyRead F.Files files.old files.new }
        ensures counted { CountsReads F.Files files.old files.new (IsFault result) (IsTooLong result) }
        ensures in_order { AreRead (F.reads files.old) (F.reads files.new) (file_names (names_of (asked self.now))) (IsOk result) }
    {
        Ok(match self {
            Request::Rewrite(request) => Outcome::Rewrite(rewrite_files(alloc, request, files)?),
            Request::Verify(request) => Outcome::Verify(verify_files(alloc, request, files)?),
            Request::Compare(request) => Outcome::Compare(compare_files(alloc, request, files)?),
            Request::Run(request) => Outcome::Run(run_files(alloc, request, files)?),
            Request::Demo(request) => Outcome::Demo(demonstrate(alloc, request)?),
        })
    }
}
