//! The command that the arguments name.

ghost use Rattle.std.specs.Prelude.{◌≡◌, ℕ, ◌≤◌, map, string_bytes, IfSome, IfNone};
ghost use Rattle.proxy_commands.specs.declared.command.Command.{Command as AnyCommand};
ghost use Rattle.proxy_commands.specs.Command.{IsPieceSize, IsCommand};

use crate::reading::number;

/// What the program is asked to do.
#[derive(Clone, Copy)]
pub enum Command {
    /// `trace`: answers a script of events.
    Trace,
    /// `chunks N`: reads a chunked body in pieces of N bytes, 1 to 65,536.
    Chunks { piece_size: usize },
}

/// The largest size of a piece, 65,536 bytes.
const MAX_PIECE: u64 = 65_536;

/// The size of pieces that an argument gives.
fn read_piece_size(digits: &[u8]) -> Option<usize>
    ensures found { IfSome result (IsPieceSize digits.now) }
    ensures none { IfNone result ((size : ℕ) → IsPieceSize digits.now size → ⊥) }
{
    let size = number(digits)?;
    if 1 <= size && size <= MAX_PIECE {
        Some(size as usize)
    } else {
        None
    }
}

/// The command that the arguments after the program's name give. `None` for an unknown word, an
/// argument too many or too few, or a size that is out of range or no decimal.
pub fn read_command(args: &[String]) -> Option<Command>
    ensures found { IfSome result (IsCommand (map string_bytes args.now)) }
    ensures none { IfNone result ((command : AnyCommand) → IsCommand (map string_bytes args.now) command → ⊥) }
{
    match args {
        [word] => {
            if word.as_str() == "trace" {
                Some(Command::Trace)
            } else {
                None
            }
        }
        [word, size] => {
            if word.as_str() == "chunks" {
                let piece_size = read_piece_size(size.as_bytes())?;
                Some(Command::Chunks { piece_size })
            } else {
                None
            }
        }
        _ => None,
    }
}
