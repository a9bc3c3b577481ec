//! What `clap` matched, as a command and its words.

ghost use Rattle.std.specs.Prelude.{◌≡◌, IfOk, [], ◌∷◌, ◌++◌, codes, option_and_then, option_map};
ghost use Rattle.clap.specs.Words.{all_of, first_of, found_of, kind_of, rows_of, subcommand_rows_of};
ghost use Rattle.clap.specs.Walk.{texts};
ghost use Rattle.tool_words.specs.Plain.{AsksAsRead, AsksIfFaultless, TakesMarked, TakesPlain};
ghost use Rattle.tool_words.specs.CommandLine.{COMPARE, COMPARE_LINK, DEMO, HARDEN, LINK, REWRITE, RUN, VERIFY};
ghost use Rattle.tool_words.specs.Reading.{EndsBy, Gives, asked_or_refused, listed_in, reading, request, request_in, request_of, rewrite_listed, spelled};

use crate::asked::{
    Asked, CompareLinkWords, CompareWords, DemoWords, HardenWords, LinkWords, RewriteWords,
    RunWords, VerifyWords,
};
use crate::command::command_line;
use crate::end::WordsEnd;
use crate::help::if_alone;
use clap::error::ErrorKind;
use clap::{ArgMatches, Error};
use std::alloc::{AllocError, Global};

/// The word of this name.
fn word<'a>(matches: &ArgMatches<'a>, name: &str) -> Option<&'a str>
    ensures { option_map (λ s. s.now) result ≡ first_of name.now (rows_of (found_of matches.now)) }
{
    matches.get_str(name)
}

/// The command that was matched, and its words.
fn command<'m, 'a>(matches: &'m ArgMatches<'a>) -> Option<(&'a str, &'m ArgMatches<'a>)>
    ensures { option_map (λ p. (p.0.now, rows_of (found_of p.1.now))) result ≡ subcommand_rows_of matches.now }
{
    matches.subcommand()
}

/// The words of two names, if both are there.
fn two_words<'a>(matches: &ArgMatches<'a>, first: &str, second: &str) -> Option<(&'a str, &'a str)>
    ensures { option_map (λ p. p.0.now ∷ p.1.now ∷ []) result ≡ listed_in (first.now ∷ second.now ∷ []) (rows_of (found_of matches.now)) }
{
    word(matches, first).zip(word(matches, second))
}

/// The words of `rewrite`, if each is there.
fn rewrite_words<'a>(matches: &ArgMatches<'a>) -> Option<RewriteWords<'a>>
    ensures { option_map rewrite_listed result ≡ listed_in REWRITE.operands (rows_of (found_of matches.now)) }
{
    let (((object, entry), (policy, image)), (graph, map)) = two_words(matches, "OBJECT", "ENTRY")
        .zip(two_words(matches, "POLICY", "IMAGE"))
        .zip(two_words(matches, "GRAPH", "MAP"))?;
    Some(RewriteWords {
        object,
        entry,
        policy,
        image,
        graph,
        map,
    })
}

/// `rewrite` and its words, if each is there.
fn rewrite<'a>(matches: &ArgMatches<'a>) -> Option<Asked<'a>>
    ensures { option_map request_of result ≡ request REWRITE (rows_of (found_of matches.now)) }
{
    let words = rewrite_words(matches)?;
    Some(Asked::Rewrite(words))
}

/// `harden` and its words, if each is there.
fn harden<'a>(matches: &ArgMatches<'a>) -> Option<Asked<'a>>
    ensures { option_map request_of result ≡ request HARDEN (rows_of (found_of matches.now)) }
{
    let (form, rewrite) = word(matches, "FORM").zip(rewrite_words(matches))?;
    Some(Asked::Harden(HardenWords { form, rewrite }))
}

/// `verify` and its words, if each is there.
fn verify<'a>(matches: &ArgMatches<'a>) -> Option<Asked<'a>>
    ensures { option_map request_of result ≡ request VERIFY (rows_of (found_of matches.now)) }
{
    let (image, graph) = two_words(matches, "IMAGE", "GRAPH")?;
    Some(Asked::Verify(VerifyWords { image, graph }))
}

/// `run` and its words, if each is there.
fn run<'a>(matches: &ArgMatches<'a>) -> Option<Asked<'a>>
    ensures { option_map request_of result ≡ request RUN (rows_of (found_of matches.now)) }
{
    let (((image, graph), (script, input)), steps) = two_words(matches, "IMAGE", "GRAPH")
        .zip(two_words(matches, "SCRIPT", "INPUT"))
        .zip(word(matches, "STEPS"))?;
    Some(Asked::Run(RunWords {
        image,
        graph,
        script,
        input,
        steps,
    }))
}

/// `compare` and its words, if each is there.
fn compare<'a>(matches: &ArgMatches<'a>) -> Option<Asked<'a>>
    ensures { option_map request_of result ≡ request COMPARE (rows_of (found_of matches.now)) }
{
    let (((object, entry), (policy, image)), (map, input)) = two_words(matches, "OBJECT", "ENTRY")
        .zip(two_words(matches, "POLICY", "IMAGE"))
        .zip(two_words(matches, "MAP", "INPUT"))?;
    let steps = word(matches, "STEPS")?;
    Some(Asked::Compare(CompareWords {
        object,
        entry,
        policy,
        image,
        map,
        input,
        steps,
    }))
}

/// `demo` and its word, if it is there.
fn demo<'a>(matches: &ArgMatches<'a>) -> Option<Asked<'a>>
    ensures { option_map request_of result ≡ request DEMO (rows_of (found_of matches.now)) }
{
    let number = word(matches, "NUMBER")?;
    Some(Asked::Demo(DemoWords { number }))
}

/// The objects, if there is one.
fn objects<'a>(alloc: Global, matches: &ArgMatches<'a>) -> Result<Option<Vec<&'a str>>, AllocError>
    ensures { IfOk result (λ objects. option_map (λ all. texts all.items) objects ≡ all_of (codes "OBJECT") (rows_of (found_of matches.now))) }
{
    match matches.get_raw("OBJECT") {
        Some(objects) => Ok(Some(Vec::from_slice(alloc, objects)?)),
        None => Ok(None),
    }
}

/// `link` of these objects, if each other word is there.
fn link_of<'a>(matches: &ArgMatches<'a>, objects: Vec<&'a str>) -> Option<Asked<'a>>
    ensures { option_map request_of result ≡ option_map (λ words. LINK.name ∷ words ++ texts objects.entry.items) (listed_in LINK.operands (rows_of (found_of matches.now))) }
{
    let (((form, entry), (policy, image)), (graph, map)) = two_words(matches, "FORM", "ENTRY")
        .zip(two_words(matches, "POLICY", "IMAGE"))
        .zip(two_words(matches, "GRAPH", "MAP"))?;
    Some(Asked::Link(LinkWords {
        form,
        entry,
        policy,
        image,
        graph,
        map,
        objects,
    }))
}

/// `link` and its words, if each is there.
fn link<'a>(alloc: Global, matches: &ArgMatches<'a>) -> Result<Option<Asked<'a>>, AllocError>
    ensures { IfOk result (λ asked. option_map request_of asked ≡ request LINK (rows_of (found_of matches.now))) }
{
    match objects(alloc, matches)? {
        Some(objects) => Ok(link_of(matches, objects)),
        None => Ok(None),
    }
}

/// `compare-link` of these objects, if each other word is there.
fn compare_link_of<'a>(matches: &ArgMatches<'a>, objects: Vec<&'a str>) -> Option<Asked<'a>>
    ensures { option_map request_of result ≡ option_map (λ words. COMPARE_LINK.name ∷ words ++ texts objects.entry.items) (listed_in COMPARE_LINK.operands (rows_of (found_of matches.now))) }
{
    let (((entry, policy), (image, map)), (input, steps)) = two_words(matches, "ENTRY", "POLICY")
        .zip(two_words(matches, "IMAGE", "MAP"))
        .zip(two_words(matches, "INPUT", "STEPS"))?;
    Some(Asked::CompareLink(CompareLinkWords {
        entry,
        policy,
        image,
        map,
        input,
        steps,
        objects,
    }))
}

/// `compare-link` and its words, if each is there.
fn compare_link<'a>(
    alloc: Global,
    matches: &ArgMatches<'a>,
) -> Result<Option<Asked<'a>>, AllocError>
    ensures { IfOk result (λ asked. option_map request_of asked ≡ request COMPARE_LINK (rows_of (found_of matches.now))) }
{
    match objects(alloc, matches)? {
        Some(objects) => Ok(compare_link_of(matches, objects)),
        None => Ok(None),
    }
}

/// What is asked for, if each of the command's words is there.
fn asked<'a>(alloc: Global, matches: &ArgMatches<'a>) -> Result<Option<Asked<'a>>, AllocError>
    ensures { IfOk result (λ asked. option_map request_of asked ≡ option_and_then request_in (subcommand_rows_of matches.now)) }
{
    let Some((name, words)) = command(matches) else {
        return Ok(None);
    };
    Ok(match name {
        "rewrite" => rewrite(words),
        "verify" => verify(words),
        "run" => run(words),
        "compare" => compare(words),
        "demo" => demo(words),
        "harden" => harden(words),
        "link" => link(alloc, words)?,
        "compare-link" => compare_link(alloc, words)?,
        _ => None,
    })
}

/// What the matches come to: what is asked for, or that a word is not there.
fn answer<'a>(alloc: Global, matches: &ArgMatches<'a>) -> Result<Asked<'a>, WordsEnd>
    ensures { Gives (asked_or_refused (option_and_then request_in (subcommand_rows_of matches.now))) result }
{
    asked(alloc, matches)?.ok_or(WordsEnd::Refused)
}

/// What an error ends with: help and the version are texts to show, if there is memory for them.
fn end_of(alloc: Global, error: &Error) -> WordsEnd
    ensures { EndsBy (kind_of error.now) result }
{
    match error.kind() {
        ErrorKind::DisplayHelp => match format!(in alloc; "{error}") {
            Ok(text) => WordsEnd::Help(text),
            Err(_) => WordsEnd::NoMemory,
        },
        ErrorKind::DisplayVersion => match format!(in alloc; "{error}") {
            Ok(text) => WordsEnd::Version(text),
            Err(_) => WordsEnd::NoMemory,
        },
        ErrorKind::OutOfMemory => WordsEnd::NoMemory,
        _ => WordsEnd::Refused,
    }
}

/// Reads the words of a command line, the program's name first. What the texts of help and of the version say is not told.
pub fn read_words<'a>(alloc: Global, words: &'a [String]) -> Result<Asked<'a>, WordsEnd>
    ensures reading { Gives (reading (spelled words.now)) result }
    ensures faultless { AsksIfFaultless (spelled words.now) }
    ensures asked { AsksAsRead (spelled words.now) }
    ensures plain { TakesPlain (spelled words.now) }
    ensures marked { TakesMarked (spelled words.now) }
{
    let command = command_line(alloc)?;
    match command.try_get_matches_from(words) {
        Ok(matches) => answer(alloc, &matches),
        Err(error) => Err(if_alone(words, end_of(alloc, &error))),
    }
}
