// The command line.
use anyhow::{Result, bail};
use clap::{Arg, ArgAction, ArgMatches, Command};
use lsp_judge::choice::{Choice, FailOn, Ignored};
use lsp_judge::report::Form;
use lsp_watch::{Group, Level, Rule, rules};
use std::alloc::{AllocError, Global};

const ABOUT: &str =
    "Judges what passed between an LSP client and a server: messages, ids, the order of the lifecycle, documents and progress";

const MORE: &str = "\
A FILE is a recording or a log. Its first lines show which one:
- a recording of example_recorder: `-> ` and a message to the server, or `<- ` and one to the client
- a trace of VS Code, as text or in JSON (\"trace.server\": \"verbose\"), of coc.nvim, lsp-mode or `gopls -rpc.trace`
- lsp.log of Neovim (vim.lsp.set_log_level(\"debug\"))
- the events of eglot in Emacs
- the log of Helix (hx -v); each of its servers is judged by itself
`-` is standard input. Two files of frames (--to-server, --to-client) do not say what passed first. Only what is a breach
in each order is reported as one, and --rules is refused, since it is not known what passed before a message.

Each message that breaks a rule has a line, with its place and that of the message that it goes against. `lsp_check rules`
lists the rules. If a file is cut, its whole messages are judged. `perhaps` marks a breach that is not certain, such as one
in a log that begins in the middle of a session.

With --json each line is an object. Its \"kind\" is one of
- \"breach\" or \"cannot_tell\": a place, \"way\", \"rule\", \"level\", \"side\", \"fails\", \"method\" (\"reply\" of a reply), \"text\",
  perhaps \"id\", \"uri\" or \"token\", and perhaps \"against\", another place
- \"open\": a place, \"way\", \"method\", \"id\", \"text\"
- \"stop\": a place, and \"text\": why it is not judged
- \"note\": \"file\", and \"text\": what is true of the whole file
- \"summary\": \"file\", perhaps \"second\" or \"server\", \"requests\", \"replies\", \"open\", \"breaches\", \"failing\", and, if
  times are known, \"slowest\": \"milliseconds\", and the place of the request
A place is \"file\" and \"line\", from 1 on, or \"byte\" of frames, from 0 on.

The status is the first of these that applies:
- 1: the side of --fail-on broke a rule of the level of --level or a stronger one, and the rule is not ignored
- 2: a file could not be opened or has no message, or an argument is wrong
- 3: a file could not be read to its end
- 0: otherwise
";

const BETWEEN: &str = "\
The clients have sessions with the server one after another, each over a connection of its own. Their bytes pass
unchanged. A breach is reported at once, on standard error, or with --json on standard output. After bytes that are no
frame nothing more is judged, and the bytes still pass. A place counts the bytes that the client or the server sent before.
";

pub fn command<'a>(alloc: Global) -> Result<Command<'a>, AllocError> {
    let command = Command::new(alloc, "lsp_check")
        .about(ABOUT)
        .version("0.26.0")
        .after_help(MORE)
        .arg(fail_on(alloc)?)?
        .arg(level(alloc)?)?
        .arg(ignore(alloc))?
        .arg(group(alloc))?
        .arg(flag(alloc, "json", "Reports in lines of JSON"))?
        .arg(flag(alloc, "sarif", "Reports as SARIF 2.1.0").conflicts_with("json")?)?
        .arg(
            flag(alloc, "junit", "Reports as JUnit's XML")
                .conflicts_with("json")?
                .conflicts_with("sarif")?,
        )?;
    let log = flag(alloc, "log", "Is no longer needed: the log is recognised").hide(true);
    files(alloc, command.arg(log)?)?
        .subcommand_negates_reqs(true)
        .subcommand(between(alloc)?)?
        .subcommand(of_files(
            alloc,
            "stats",
            "Counts and times the requests of logs, by method",
        )?)?
        .subcommand(of_files(
            alloc,
            "html",
            "Writes a page that shows the session of a log",
        )?)?
        .subcommand(list(alloc)?)
}

/// The files of a judgement.
fn files<'a>(alloc: Global, command: Command<'a>) -> Result<Command<'a>, AllocError> {
    let to_server = Arg::new(alloc, "to-server")
        .long("to-server")
        .value_name("FRAMES")
        .help("The client's frames, one after another")
        .requires_arg("to-client")?;
    let to_client = Arg::new(alloc, "to-client")
        .long("to-client")
        .value_name("FRAMES")
        .help("The server's frames, of the same session")
        .requires_arg("to-server")?
        .conflicts_with("FILE")?;
    let files = Arg::new(alloc, "FILE")
        .num_args(0..)
        .help("Recordings or logs; - is standard input")
        .required_unless_present("to-server")?;
    command.arg(to_server)?.arg(to_client)?.arg(files)
}

fn fail_on<'a>(alloc: Global) -> Result<Arg<'a>, AllocError> {
    Ok(
        Arg::new(alloc, "fail-on")
            .long("fail-on")
            .value_name("SIDE")
            .help("Whose breaches make the status 1: server, client or both [default: server]"),
    )
}

fn level<'a>(alloc: Global) -> Result<Arg<'a>, AllocError> {
    Ok(
        Arg::new(alloc, "level")
            .long("level")
            .value_name("LEVEL")
            .help("From which level on they do: must, should or implied [default: must]"),
    )
}

fn ignore<'a>(alloc: Global) -> Arg<'a> {
    Arg::new(alloc, "ignore")
        .long("ignore")
        .value_name("RULE[@METHOD]")
        .action(ArgAction::Append)
        .help("Does not report breaches of this rule, or those by messages of a method")
}

fn group<'a>(alloc: Global) -> Arg<'a> {
    Arg::new(alloc, "rules")
        .long("rules")
        .value_name("GROUP")
        .action(ArgAction::Append)
        .help(
            "Adds rules to those of the session: capabilities, of what both sides announced; types, of params and results; texts, of edits, tokens and ranges; all. It may stand several times",
        )
}

fn between<'a>(alloc: Global) -> Result<Command<'a>, AllocError> {
    let listen = Arg::new(alloc, "LISTEN").required(true).help(
        "The address at which clients connect, such as 127.0.0.1:9257",
    );
    let server = Arg::new(alloc, "SERVER")
        .required(true)
        .help("The address of the server");
    let once = flag(alloc, "once", "Ends after one client, with its status");
    Command::new(alloc, "between")
        .about("Passes on what clients and a server send, and judges it")
        .after_help(BETWEEN)
        .arg(once)?
        .arg(fail_on(alloc)?)?
        .arg(level(alloc)?)?
        .arg(ignore(alloc))?
        .arg(group(alloc))?
        .arg(flag(alloc, "json", "Reports in lines of JSON"))?
        .arg(listen)?
        .arg(server)
}

/// A command over files.
fn of_files<'a>(alloc: Global, name: &'a str, about: &'a str) -> Result<Command<'a>, AllocError> {
    let files = Arg::new(alloc, "FILE")
        .num_args(1..)
        .required(true)
        .help("Recordings or logs; - is standard input");
    Command::new(alloc, name)
        .about(about)
        .arg(flag(alloc, "json", "Reports in lines of JSON"))?
        .arg(files)
}

fn list<'a>(alloc: Global) -> Result<Command<'a>, AllocError> {
    Command::new(alloc, "rules")
        .about(
            "Lists the rules: the name, whose breach it is, the level, the sentence and its section",
        )
        .arg(flag(alloc, "json", "Reports in lines of JSON"))
}

fn flag<'a>(alloc: Global, name: &'a str, help: &'a str) -> Arg<'a> {
    Arg::new(alloc, name)
        .long(name)
        .help(help)
        .action(ArgAction::SetTrue)
}

/// The form that the arguments ask for.
pub fn form_of(matches: &ArgMatches<'_>) -> Form {
    if matches.get_flag("json") {
        Form::Json
    } else if matches.contains_id("sarif") && matches.get_flag("sarif") {
        Form::Sarif
    } else if matches.contains_id("junit") && matches.get_flag("junit") {
        Form::Junit
    } else {
        Form::Text
    }
}

/// Which breaches count, by the arguments. The error says which argument is wrong.
pub fn choice_of(alloc: Global, matches: &ArgMatches<'_>) -> Result<Choice> {
    let fail_on = match matches.get_str("fail-on").unwrap_or("server") {
        "server" => FailOn::Servers,
        "client" => FailOn::Clients,
        "both" => FailOn::Both,
        _ => bail!("--fail-on is server, client or both"),
    };
    let level = match matches.get_str("level").unwrap_or("must") {
        "must" => Level::Must,
        "should" => Level::Should,
        "implied" => Level::Implied,
        _ => bail!("--level is must, should or implied"),
    };
    let groups = matches.get_strs("rules").unwrap_or(&[]);
    if adds_rules(groups)? && matches.get_str("to-server").is_some() {
        bail!("--rules needs the order of the messages, which two files of frames do not have");
    }
    let capabilities = has_group(groups, Group::Capabilities)?;
    let types = rules_of_types(alloc, groups)?;
    let mut ignored = Vec::new(alloc);
    for word in matches.get_strs("ignore").unwrap_or(&[]) {
        ignored.push(ignored_of(alloc, word)?)?;
    }
    Ok(Choice {
        fail_on,
        level,
        ignored,
        capabilities,
        types,
    })
}

/// Whether there are more rules than those of the session. The error says that a word is no group.
fn adds_rules(groups: &[&str]) -> Result<bool> {
    Ok(
        has_group(groups, Group::Capabilities)?
            || has_group(groups, Group::Types)?
            || has_group(groups, Group::Texts)?,
    )
}

/// Whether a group of rules is chosen. The error says that another word is no group.
fn has_group(groups: &[&str], group: Group) -> Result<bool> {
    let mut has = group == Group::Session;
    for name in groups {
        let is_this = match *name {
            "session" => false,
            "capabilities" => group == Group::Capabilities,
            "types" => group == Group::Types,
            "texts" => group == Group::Texts,
            "all" => true,
            _ => bail!("--rules is session, capabilities, types, texts or all"),
        };
        has = has || is_this;
    }
    Ok(has)
}

/// The rules of types and texts that are chosen.
fn rules_of_types(alloc: Global, groups: &[&str]) -> Result<Vec<Rule>> {
    let (types, texts) = (
        has_group(groups, Group::Types)?,
        has_group(groups, Group::Texts)?,
    );
    let mut chosen = rules(alloc)?;
    chosen.retain(|it| match it.group() {
        Group::Types => types,
        Group::Texts => texts,
        Group::Session | Group::Capabilities => false,
    });
    Ok(chosen)
}

/// `RULE` or `RULE@METHOD`.
fn ignored_of(alloc: Global, word: &str) -> Result<Ignored> {
    let (name, method) = match word.split_once("@") {
        Some((name, method)) => (name, Some(String::from_str(alloc, method)?)),
        None => (word, None),
    };
    match rule_of(alloc, name)? {
        Some(rule) => Ok(Ignored { rule, method }),
        None => bail!("--ignore {name}: there is no such rule; `lsp_check rules` lists them"),
    }
}

/// The rule of this name.
fn rule_of(alloc: Global, name: &str) -> Result<Option<Rule>> {
    Ok(rules(alloc)?.iter().copied().find(|it| it.name() == name))
}
