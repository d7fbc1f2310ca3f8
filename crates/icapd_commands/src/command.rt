//! The command that the arguments name.
ghost use Rattle.std.specs.Prelude.{◌≡◌, map, string_bytes, IfSome, IfNone};
ghost use Rattle.icapd_commands.specs.declared.command.IcapdCommand.{IcapdCommand as AnyCommand};
ghost use Rattle.icapd_commands.specs.Command.{word_of, IsCommand};

/// What the program is asked to do.
#[derive(Clone, Copy, Debug)]
pub enum IcapdCommand {
    /// `once`: serves standard input as one connection.
    Once,
    /// `serve`: serves connections over sockets.
    Serve,
    /// `check`: reads a configuration as `serve` does, and says whether it is one.
    Check,
    /// `--help`: prints the commands.
    Help,
    /// `--version`: prints the version, and the kit.
    Version,
}

/// The command that the arguments after the program's name give. `None` for an unknown word, or an argument too many or
/// too few.
pub fn read_command(args: &[String]) -> Option<IcapdCommand>
    ensures found { IfSome result (IsCommand (map string_bytes args.now)) }
    ensures none { IfNone result ((command : AnyCommand) → IsCommand (map string_bytes args.now) command → ⊥) }
{
    match args {
        [word] => command_of(word.as_str()),
        _ => None,
    }
}

/// The command of a word.
fn command_of(word: &str) -> Option<IcapdCommand>
    ensures found { IfSome result (λ command. word.now ≡ word_of command) }
    ensures none { IfNone result ((command : AnyCommand) → word.now ≡ word_of command → ⊥) }
{
    if word == "once" {
        Some(IcapdCommand::Once)
    } else if word == "serve" {
        Some(IcapdCommand::Serve)
    } else if word == "check" {
        Some(IcapdCommand::Check)
    } else if word == "--help" {
        Some(IcapdCommand::Help)
    } else if word == "--version" {
        Some(IcapdCommand::Version)
    } else {
        None
    }
}
