ghost use Rattle.std.specs.Prelude.{◌≡◌, ℕ, IfOk, List, codes, map};
ghost use Rattle.std.specs.List.{list_any};
ghost use Rattle.std.specs.Str.{bytes_eq};
ghost use Rattle.tool_words.specs.CommandLine.{AreCommands, IsArgument, IsCommand, command_line, commands, form_by, form_of, many, usage};
ghost use Rattle.tool_words.specs.HelpWords.{is_command};

use clap::{Arg, ArgAction, Command};
use std::alloc::{AllocError, Global};

const VERSION: &str = "1.0.0";

/// A command: its name, what it does, the words that it wants, each with what it is, and whether one object or more follow them.
pub(crate) struct Form {
    pub(crate) name: &'static str,
    about: &'static str,
    operands: &'static [(&'static str, &'static str)],
    has_objects: bool,
}

/// The commands, in the order of the help.
static COMMANDS: [Form; 8] = [
    Form {
        name: "rewrite",
        about: "Hardens an object: writes an image, its graph and its map",
        operands: &[
            ("OBJECT", "The object to read"),
            ("ENTRY", "The symbol at which the program begins"),
            ("POLICY", "The policy to read, or none"),
            ("IMAGE", "The image to write"),
            ("GRAPH", "The graph to write"),
            ("MAP", "The map to write"),
        ],
        has_objects: false,
    },
    Form {
        name: "verify",
        about: "Tells whether an image keeps to its graph",
        operands: &[
            ("IMAGE", "The image to read"),
            ("GRAPH", "The graph to read"),
        ],
        has_objects: false,
    },
    Form {
        name: "run",
        about: "Runs an accepted image, and reports on the run",
        operands: &[
            ("IMAGE", "The image to read"),
            ("GRAPH", "The graph to read"),
            ("SCRIPT", "The script of changes to read, or none"),
            ("INPUT", "The program's input to read, or none"),
            ("STEPS", "How many steps are taken at most"),
        ],
        has_objects: false,
    },
    Form {
        name: "compare",
        about: "Compares the run of an object with that of its image",
        operands: &[
            ("OBJECT", "The object to read"),
            ("ENTRY", "The symbol at which the program begins"),
            ("POLICY", "The policy to read, or none"),
            ("IMAGE", "The image to read"),
            ("MAP", "The map to read"),
            ("INPUT", "The program's input to read, or none"),
            ("STEPS", "How many steps the program takes at most"),
        ],
        has_objects: false,
    },
    Form {
        name: "demo",
        about: "Makes an object from a number, hardens, runs and compares it",
        operands: &[("NUMBER", "The number that an object is made from")],
        has_objects: false,
    },
    Form {
        name: "harden",
        about: "Does what rewrite does, in one of six forms",
        operands: &[
            (
                "FORM",
                "The form of what is made: plain, harts, split, harts-split, lean or harts-lean",
            ),
            ("OBJECT", "The object to read"),
            ("ENTRY", "The symbol at which the program begins"),
            ("POLICY", "The policy to read, or none"),
            ("IMAGE", "The image to write"),
            ("GRAPH", "The graph to write"),
            ("MAP", "The map to write"),
        ],
        has_objects: false,
    },
    Form {
        name: "link",
        about: "Does what harden does, with objects joined to one program",
        operands: &[
            (
                "FORM",
                "The form of what is made: plain, harts, split, harts-split, lean or harts-lean",
            ),
            ("ENTRY", "The symbol at which the program begins"),
            ("POLICY", "The policy to read, or none"),
            ("IMAGE", "The image to write"),
            ("GRAPH", "The graph to write"),
            ("MAP", "The map to write"),
        ],
        has_objects: true,
    },
    Form {
        name: "compare-link",
        about: "Does what compare does, with objects joined to one program",
        operands: &[
            ("ENTRY", "The symbol at which the program begins"),
            ("POLICY", "The policy to read, or none"),
            ("IMAGE", "The image to read"),
            ("MAP", "The map to read"),
            ("INPUT", "The program's input to read, or none"),
            ("STEPS", "How many steps the program takes at most"),
        ],
        has_objects: true,
    },
];

/// The forms of the commands, in the order of the help.
#[tactic(auto, unfolding(crate::specs::HelpWords::is_command))]
pub(crate) fn forms() -> &'static [Form]
    ensures made { map form_of result.now ≡ map form_by commands }
    ensures named { (name : List ℕ) → list_any (λ form. bytes_eq name form.name.now) result.now ≡ is_command name }
{
    &COMMANDS
}

/// Their names, behind the program's.
const USAGE: &str = "usage: rvcfi rewrite|verify|run|compare|demo|harden|link|compare-link";

/// The line that tells which commands there are.
pub fn usage() -> &'static str
    ensures { result.now ≡ usage }
{
    USAGE
}

/// The word of which a command wants one or more: an object.
fn objects<'a>(alloc: Global) -> Arg<'a>
    ensures { IsArgument (many (codes "OBJECT")) result }
{
    Arg::new(alloc, "OBJECT")
        .required(true)
        .action(ArgAction::Append)
        .help("The objects to read, in their order")
}

/// The command of a form.
fn command_of<'a>(alloc: Global, form: &Form) -> Result<Command<'a>, AllocError>
    ensures { IfOk result (IsCommand (form_of form.now)) }
{
    let mut command = Command::new(alloc, form.name).about(form.about);
    for (name, help) in form.operands {
        command = command.arg(Arg::new(alloc, name).required(true).help(help))?;
    }
    if form.has_objects {
        return command.arg(objects(alloc));
    }
    Ok(command)
}

/// The commands of these forms.
fn commands<'a>(alloc: Global, forms: &[Form]) -> Result<Vec<Command<'a>>, AllocError>
    ensures { IfOk result (λ made. AreCommands (map form_of forms.now) made.items) }
{
    let mut commands = Vec::new(alloc);
    for form in forms {
        commands.push(command_of(alloc, form)?)?;
    }
    Ok(commands)
}

/// The program's command line.
pub(crate) fn command_line<'a>(alloc: Global) -> Result<Command<'a>, AllocError>
    ensures { IfOk result (IsCommand command_line) }
{
    let commands = commands(alloc, forms())?;
    Command::new(alloc, "rvcfi")
        .version(VERSION)
        .about("Control-flow integrity for RV64IM programs")
        .subcommand_required(true)
        .disable_help_subcommand(true)
        .subcommands(commands)
}
