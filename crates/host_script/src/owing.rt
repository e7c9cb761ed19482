// The records that are owed an answer.
ghost use Rattle.std.specs.Prelude.{◌≡◌};
ghost use Rattle.host_model.specs.Groups.{is_member, is_closing, is_owing};
ghost use Rattle.script_model.specs.Owed.{owes};

use host_record::Request;
use script_model::ScriptLine;

fn is_member(request: &Request) -> bool
    ensures { result ≡ is_member request.now }
{
    request.is_grouped() && request.group <= 7
}

fn is_closing(request: &Request) -> bool
    ensures { result ≡ is_closing request.now }
{
    is_member(request) && request.is_last()
}

fn is_owing(request: &Request) -> bool
    ensures { result ≡ is_owing request.now }
{
    !is_member(request) || is_closing(request)
}

/// Whether the line sends a record that is owed an answer.
pub fn owes(line: &ScriptLine) -> bool
    ensures { result ≡ owes line.now }
{
    match line {
        ScriptLine::Send { bytes } => is_owing(&Request::from_bytes(bytes)),
        _ => false,
    }
}
