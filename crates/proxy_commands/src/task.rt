//! The commands of the proxy itself.

ghost use Rattle.std.specs.Prelude.{◌≡◌, map, string_bytes, IfSome, IfNone};
ghost use Rattle.std.specs.Option.{option_copied};
ghost use Rattle.proxy_commands.specs.declared.task.Task.{Task as AnyTask};
ghost use Rattle.proxy_commands.specs.Task.{config_path, words_after, IsTask, IsTaskAlone, IsTaskBefore, IsTaskOfThree, IsTaskWithPath};

/// The option before the path of a configuration.
const CONFIG: &str = "--config";

/// What the program is asked to do with a configuration, or to say of itself.
#[derive(Clone, Copy, Debug)]
pub enum Task {
    /// `serve [--config PATH]`: is the proxy.
    Serve,
    /// `check [--config PATH]`: reads a configuration as `serve` does, and says whether it is one.
    Check,
    /// `tell [--config PATH] WORD..`: says a line to the administrator's port that a configuration names, and prints the answer.
    Tell,
    /// `probe [--only NAME] [--count N]`: tries the services that a configuration names.
    Probe,
    /// `--help`: prints the commands.
    Help,
    /// `--version`: prints the version, and the kit.
    Version,
}

/// The task that the arguments after the program's name give. `None` if they give no task.
pub fn read_task(args: &[String]) -> Option<Task>
    ensures found { IfSome result (IsTask (map string_bytes args.now)) }
    ensures none { IfNone result ((task : AnyTask) → IsTask (map string_bytes args.now) task → ⊥) }
{
    match args {
        [word] => task_of(word.as_str()),
        [word, option, _] => task_of_three(word.as_str(), option.as_str()),
        [word, _] => task_before(word.as_str()),
        [word, _, _, _, ..] => task_before(word.as_str()),
        [] => None,
    }
}

/// The task of a word that stands alone.
fn task_of(word: &str) -> Option<Task>
    ensures found { IfSome result (IsTaskAlone word.now) }
    ensures none { IfNone result ((task : AnyTask) → IsTaskAlone word.now task → ⊥) }
{
    if word == "--help" {
        Some(Task::Help)
    } else if word == "--version" {
        Some(Task::Version)
    } else {
        task_with_path(word)
    }
}

/// The task of a word before the option and its path alone.
fn task_with_path(word: &str) -> Option<Task>
    ensures found { IfSome result (IsTaskWithPath word.now) }
    ensures none { IfNone result ((task : AnyTask) → IsTaskWithPath word.now task → ⊥) }
{
    if word == "serve" {
        Some(Task::Serve)
    } else if word == "check" {
        Some(Task::Check)
    } else if word == "probe" {
        Some(Task::Probe)
    } else {
        None
    }
}

/// The task of a word before two others, of which the first may be the option.
fn task_of_three(word: &str, option: &str) -> Option<Task>
    ensures found { IfSome result (IsTaskOfThree word.now option.now) }
    ensures none { IfNone result ((task : AnyTask) → IsTaskOfThree word.now option.now task → ⊥) }
{
    if option == CONFIG {
        task_with_path(word)
    } else {
        task_before(word)
    }
}

/// The path of the configuration that the arguments give, if they give one.
pub fn config_path(args: &[String]) -> Option<&str>
    ensures { option_copied result ≡ config_path (map string_bytes args.now) }
{
    match args {
        [_, option, path, ..] if option.as_str() == CONFIG => Some(path.as_str()),
        _ => None,
    }
}

/// The words after a task, and after the option and its path.
pub fn words_after(args: &[String]) -> &[String]
    ensures { map string_bytes result.now ≡ words_after (map string_bytes args.now) }
{
    match args {
        [_, option, _, words @ ..] if option.as_str() == CONFIG => words,
        [_, words @ ..] => words,
        [] => args,
    }
}

/// The task of a word before others.
fn task_before(word: &str) -> Option<Task>
    ensures found { IfSome result (IsTaskBefore word.now) }
    ensures none { IfNone result ((task : AnyTask) → IsTaskBefore word.now task → ⊥) }
{
    if word == "tell" {
        Some(Task::Tell)
    } else if word == "probe" {
        Some(Task::Probe)
    } else {
        None
    }
}
